//! Code with the labels raised that leave it.

ghost use Rattle.std.specs.Prelude.{◌≡◌, ◌≤◌, ◌<◌, ◌^◌, ◌+◌, true, All, map, IfOk, OnOk};
ghost use Rattle.wa_types.specs.Leaves.{is_leaf};
ghost use Rattle.wa_types.specs.Syntax.{Code, done};
ghost use Rattle.wa_types.specs.View.{code, in_front, onto};
ghost use Rattle.run_theory.specs.Flat.{followed_by};
ghost use Rattle.guard_form.specs.Guarded.{raise, raised};
ghost use Rattle.flow_rewrite.specs.Putting.{Puts};
ghost use Rattle.flow_rewrite.specs.Raising.{PutsRaised, Raisable};

use crate::put::{put_block, put_if, put_loop};
use std::alloc::{AllocError, Global};
use wa_types::{Instr, copy_leaf};

/// The label raised by so much, where it leads out of so many constructs.
fn raise(inside: u32, by: u32, label: u32) -> u32
    requires { (label < 2 ^ 31) × (by ≤ 2) }
    ensures { result ≡ raise inside by label }
{
    if label < inside {
        return label;
    }
    label + by
}

/// The labels, raised.
#[inline(never)]
fn raise_each(alloc: Global, inside: u32, by: u32, labels: &[u32]) -> Result<Vec<u32>, AllocError>
    requires { (All (λ l. l < 2 ^ 31) labels.now) × (by ≤ 2) }
    ensures { IfOk result (λ v. v.items ≡ map (raise inside by) labels.now) }
{
    let mut out = Vec::with_capacity(alloc, labels.len())?;
    for label in labels {
        out.push(raise(inside, by, *label))?;
    }
    Ok(out)
}

/// Code that stands inside so many constructs of its own, with each label that leaves them raised.
pub fn raised(alloc: Global, inside: u32, by: u32, body: &[Instr]) -> Result<Vec<Instr>, AllocError>
    requires { Raisable inside by (code body.now) }
    ensures { IfOk result (λ v. code v.items ≡ raised inside by (code body.now)) }
{
    let mut out = Vec::with_capacity(alloc, body.len())?;
    raise_onto(alloc, inside, by, body, &mut out)?;
    Ok(out)
}

/// Puts it, as the last thing. It is put where it stands, so that little stands on the stack at a level.
#[cycle(raise)]
fn raise_onto(
    alloc: Global,
    inside: u32,
    by: u32,
    body: &[Instr],
    out: &mut Vec<Instr>,
) -> Result<(), AllocError>
    requires { Raisable inside by (code body.now) }
    ensures { OnOk result (code out.new.items ≡ onto out.old.items (raised inside by (code body.now))) }
{
    for instr in body {
        put_instr(alloc, inside, by, instr, out)?;
    }
    Ok(())
}

/// Puts an instruction, with its labels raised.
#[cycle(raise)]
fn put_instr(
    alloc: Global,
    inside: u32,
    by: u32,
    instr: &Instr,
    out: &mut Vec<Instr>,
) -> Result<(), AllocError>
    requires { Raisable inside by (in_front instr.now done) }
    ensures { OnOk result (PutsRaised inside by instr.now out.old.items out.new.items) }
{
    match instr {
        Instr::Block { result, body } => {
            let mut inner = Vec::with_capacity(alloc, body.len())?;
            raise_onto(alloc, inside + 1, by, body, &mut inner)?;
            put_block(out, *result, inner)?;
            Ok(())
        }
        Instr::Loop { result, body } => {
            let mut inner = Vec::with_capacity(alloc, body.len())?;
            raise_onto(alloc, inside + 1, by, body, &mut inner)?;
            put_loop(out, *result, inner)?;
            Ok(())
        }
        Instr::If {
            result,
            then_arm,
            else_arm,
        } => {
            let mut first = Vec::with_capacity(alloc, then_arm.len())?;
            raise_onto(alloc, inside + 1, by, then_arm, &mut first)?;
            let mut second = Vec::with_capacity(alloc, else_arm.len())?;
            raise_onto(alloc, inside + 1, by, else_arm, &mut second)?;
            put_if(out, *result, first, second)?;
            Ok(())
        }
        _ => {
            put_leaf(alloc, out, inside, by, instr)?;
            Ok(())
        }
    }
}

/// Puts an instruction that holds no other, with its labels raised.
#[inline(never)]
fn put_leaf(
    alloc: Global,
    out: &mut Vec<Instr>,
    inside: u32,
    by: u32,
    instr: &Instr,
) -> Result<(), AllocError>
    requires raisable { Raisable inside by (in_front instr.now done) }
    requires leaf { is_leaf instr.now ≡ true }
    ensures { OnOk result (PutsRaised inside by instr.now out.old.items out.new.items) }
{
    let leaf = raised_leaf(alloc, inside, by, instr)?;
    out.push(leaf)?;
    Ok(())
}

/// An instruction that holds no other, with its labels raised.
fn raised_leaf(alloc: Global, inside: u32, by: u32, instr: &Instr) -> Result<Instr, AllocError>
    requires raisable { Raisable inside by (in_front instr.now done) }
    requires leaf { is_leaf instr.now ≡ true }
    ensures { IfOk result (λ i. (rest : Code) → in_front i (raised inside by rest) ≡ raised inside by (in_front instr.now rest)) }
{
    match instr {
        Instr::Br(label) => Ok(Instr::Br(raise(inside, by, *label))),
        Instr::BrIf(label) => Ok(Instr::BrIf(raise(inside, by, *label))),
        Instr::BrTable { labels, last } => Ok(Instr::BrTable {
            labels: raise_each(alloc, inside, by, labels)?,
            last: raise(inside, by, *last),
        }),
        _ => copy_leaf(alloc, instr),
    }
}

/// Puts code with each label that leaves it raised by so much.
#[inline(never)]
pub fn put_raised(
    alloc: Global,
    out: &mut Vec<Instr>,
    by: u32,
    body: &[Instr],
) -> Result<(), AllocError>
    requires { Raisable 0 by (code body.now) }
    ensures { OnOk result (Puts out.old.items out.new.items (followed_by (raised 0 by (code body.now)))) }
{
    raise_onto(alloc, 0, by, body, out)
}
