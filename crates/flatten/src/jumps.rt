//! `br`, `br_table`, `return` and `unreachable` in flat form.

ghost use Rattle.std.specs.Prelude.{◌≡◌, ◌<◌, ◌^◌, All, length, reverse, true, OnOk};
ghost use Rattle.wa_types.specs.Pruned.{is_last_instr};
ghost use Rattle.wa_types.specs.Syntax.{done};
ghost use Rattle.wa_types.specs.View.{in_front};
ghost use Rattle.wa_types.specs.declared.instrs.Instr.TheVariants.{Br, BrTable, Return, Unreachable};
ghost use Rattle.wasm_validate.specs.Walk.{TypedAt};
ghost use Rattle.flatten.specs.Emitting.{all_carried, onto_stmts, PutLast, Ready};
ghost use Rattle.run_theory.specs.Flat.{Stmts};

use crate::numbers::Names;
use crate::position::{Position, put_carry, top_slot};
use std::alloc::AllocError;
use wa_model::{Operand, Stmt};
use wa_types::Instr;

/// Puts those of a branch to one of these labels.
#[tactic(auto, using(crate::proofs::JumpLemmas::moving))]
fn put_carries(
    out: &mut Vec<Stmt>,
    labels: &[Option<u32>],
    targets: &[u32],
    from: u32,
) -> Result<(), AllocError>
    requires { All (λ l. l < length labels.now) targets.now }
    ensures { OnOk result ((rest : Stmts) → onto_stmts out.new.items rest ≡ onto_stmts out.old.items (all_carried (reverse labels.now) targets.now from rest)) }
{
    for label in targets {
        put_carry(out, labels, *label, from)?;
    }
    Ok(())
}

/// Puts what a `br` stands for.
fn put_br(
    out: &mut Vec<Stmt>,
    _names: &Names,
    at: &Position,
    instr: &Instr,
    label: u32,
) -> Result<(), AllocError>
    requires is { instr.now ≡ Br label }
    requires typed { TypedAt at.now.typing (in_front instr.now done) }
    requires ready { Ready _names.now at.now }
    ensures { OnOk result (PutLast _names.now at.now instr.now out.old.items out.new.items) }
{
    let from = top_slot(&at.slots);
    put_carry(out, &at.labels, label, from)?;
    out.push(Stmt::Br(label))?;
    Ok(())
}

/// Puts what a `return` stands for: a branch out of the block around the statements.
fn put_return(
    out: &mut Vec<Stmt>,
    _names: &Names,
    at: &Position,
    instr: &Instr,
) -> Result<(), AllocError>
    requires is { instr.now ≡ Return }
    requires labels { (0 < length at.now.labels.items) × (length at.now.labels.items < 2 ^ 32) }
    requires ready { Ready _names.now at.now }
    ensures { OnOk result (PutLast _names.now at.now instr.now out.old.items out.new.items) }
{
    let label = (at.labels.len() - 1) as u32;
    let from = top_slot(&at.slots);
    put_carry(out, &at.labels, label, from)?;
    out.push(Stmt::Br(label))?;
    Ok(())
}

/// Puts what a `br_table` stands for.
fn put_br_table(
    out: &mut Vec<Stmt>,
    _names: &Names,
    at: &Position,
    instr: &Instr,
    targets: &Vec<u32>,
    last: u32,
) -> Result<(), AllocError>
    requires is { instr.now ≡ BrTable targets.now last }
    requires typed { TypedAt at.now.typing (in_front instr.now done) }
    requires ready { Ready _names.now at.now }
    ensures { OnOk result (PutLast _names.now at.now instr.now out.old.items out.new.items) }
{
    let index = top_slot(&at.slots);
    let from = top_slot(&at.slots[..at.slots.len() - 1]);
    put_carries(out, &at.labels, targets, from)?;
    put_carry(out, &at.labels, last, from)?;
    out.push(Stmt::BrTable {
        index: Operand::Local(index),
        labels: Vec::from_slice(at.alloc, targets)?,
        last,
    })?;
    Ok(())
}

/// Puts what an instruction stands for behind which control never goes on.
#[inline(never)]
pub fn put_last(
    out: &mut Vec<Stmt>,
    names: &Names,
    at: &Position,
    instr: &Instr,
) -> Result<(), AllocError>
    requires last { is_last_instr instr.now ≡ true }
    requires labels { (0 < length at.now.labels.items) × (length at.now.labels.items < 2 ^ 32) }
    requires typed { TypedAt at.now.typing (in_front instr.now done) }
    requires ready { Ready names.now at.now }
    ensures { OnOk result (PutLast names.now at.now instr.now out.old.items out.new.items) }
{
    match instr {
        Instr::Br(label) => put_br(out, names, at, instr, *label),
        Instr::BrTable { labels, last } => put_br_table(out, names, at, instr, labels, *last),
        Instr::Return => put_return(out, names, at, instr),
        Instr::Unreachable => {
            out.push(Stmt::Unreachable)?;
            Ok(())
        }
        _ => unreachable!(),
    }
}
