//! Accesses of locals, `br_if`, and the instructions that touch neither control nor locals, in flat form.

ghost use Rattle.std.specs.Prelude.{◌≡◌, ◌≤◌, drop, length, map, reverse, take, None, Some, IfOk, MatchOption, OnOk};
ghost use Rattle.wa_types.specs.Syntax.{done, Basic};
ghost use Rattle.wa_types.specs.View.{in_front};
ghost use Rattle.wa_types.specs.declared.instrs.Instr.TheVariants.{BrIf, LocalGet, LocalSet, LocalTee};
ghost use Rattle.wasm_validate.specs.Walk.{TypedAt};
ghost use Rattle.flatten.specs.Emitting.{all_of, basic_of, HoldsBut, Put, Ready};
ghost use Rattle.flatten.specs.Numbers.{bit};
ghost use Rattle.flat_laws.specs.Flatten.{slots, top_of};
ghost use Rattle.wa_model.specs.Store.{gives};
ghost use Rattle.wa_model.specs.declared.flat.Operand.TheVariants.{Local};

use crate::numbers::Names;
use crate::position::{Position, pop_slot, push_slot, put_carry, top_slot};
use std::alloc::{AllocError, Global};
use wa_model::{Operand, Stmt};
use wa_types::{Instr, copy_leaf};

/// Puts what a `local.get` stands for.
pub fn put_get(
    out: &mut Vec<Stmt>,
    names: &Names,
    at: &mut Position,
    instr: &Instr,
    x: u32,
) -> Result<(), AllocError>
    requires is { instr.now ≡ LocalGet x }
    requires typed { TypedAt at.old.typing (in_front instr.now done) }
    requires ready { Ready names.now at.old }
    ensures { OnOk result (Put names.now at.old at.new instr.now out.old.items out.new.items) }
{
    at.typing.advance(instr)?;
    let to = push_slot(names, at)?;
    out.push(Stmt::Move {
        to,
        from: Operand::Local(x),
    })?;
    Ok(())
}

/// Puts what a `local.set` stands for.
pub fn put_set(
    out: &mut Vec<Stmt>,
    names: &Names,
    at: &mut Position,
    instr: &Instr,
    x: u32,
) -> Result<(), AllocError>
    requires is { instr.now ≡ LocalSet x }
    requires typed { TypedAt at.old.typing (in_front instr.now done) }
    requires ready { Ready names.now at.old }
    ensures { OnOk result (Put names.now at.old at.new instr.now out.old.items out.new.items) }
{
    let from = pop_slot(&mut at.slots);
    at.typing.advance(instr)?;
    out.push(Stmt::Move {
        to: x,
        from: Operand::Local(from),
    })?;
    Ok(())
}

/// Puts what a `local.tee` stands for.
pub fn put_tee(
    out: &mut Vec<Stmt>,
    names: &Names,
    at: &mut Position,
    instr: &Instr,
    x: u32,
) -> Result<(), AllocError>
    requires is { instr.now ≡ LocalTee x }
    requires typed { TypedAt at.old.typing (in_front instr.now done) }
    requires ready { Ready names.now at.old }
    ensures { OnOk result (Put names.now at.old at.new instr.now out.old.items out.new.items) }
{
    let from = top_slot(&at.slots);
    at.typing.advance(instr)?;
    out.push(Stmt::Move {
        to: x,
        from: Operand::Local(from),
    })?;
    Ok(())
}

/// Puts what a `br_if` stands for.
pub fn put_br_if(
    out: &mut Vec<Stmt>,
    names: &Names,
    at: &mut Position,
    instr: &Instr,
    label: u32,
) -> Result<(), AllocError>
    requires is { instr.now ≡ BrIf label }
    requires typed { TypedAt at.old.typing (in_front instr.now done) }
    requires ready { Ready names.now at.old }
    ensures { OnOk result (Put names.now at.old at.new instr.now out.old.items out.new.items) }
{
    let cond = pop_slot(&mut at.slots);
    let from = top_slot(&at.slots);
    put_carry(out, &at.labels, label, from)?;
    at.typing.advance(instr)?;
    out.push(Stmt::BrIf {
        cond: Operand::Local(cond),
        label,
    })?;
    Ok(())
}

/// 1 where told, and else 0.
fn bit(told: bool) -> usize
    ensures { result ≡ bit told }
{
    if told {
        return 1;
    }
    0
}

/// Gives the topmost operand its slot, where an instruction has just given one.
pub fn put_to(names: &Names, at: &mut Position, given: bool) -> Result<Option<u32>, AllocError>
    requires { HoldsBut given names.now at.old }
    ensures to { IfOk result (λ to. to ≡ top_of names.now (bit given) (all_of at.old.typing)) }
    ensures typing { at.new.typing ≡ at.old.typing }
    ensures labels { at.new.labels ≡ at.old.labels }
    ensures held { OnOk result (reverse at.new.slots.items ≡ slots names.now (all_of at.old.typing)) }
{
    if given {
        let to = push_slot(names, at)?;
        return Ok(Some(to));
    }
    Ok(None)
}

/// Each of these locals, as an operand.
fn operands(alloc: Global, locals: &[u32]) -> Result<Vec<Operand>, AllocError>
    ensures { IfOk result (λ v. v.items ≡ map Local locals.now) }
{
    let mut operands = Vec::with_capacity(alloc, locals.len())?;
    for local in locals {
        operands.push(Operand::Local(*local))?;
    }
    Ok(operands)
}

/// Takes the slots off from this height on, as operands.
fn take_operands(
    alloc: Global,
    slots: &mut Vec<u32>,
    kept: usize,
) -> Result<Vec<Operand>, AllocError>
    requires { kept ≤ length slots.old.items }
    ensures taken { IfOk result (λ v. v.items ≡ map Local (drop kept slots.old.items)) }
    ensures kept { OnOk result (slots.new.items ≡ take kept slots.old.items) }
{
    let args = operands(alloc, &slots[kept..])?;
    slots.truncate(kept);
    Ok(args)
}

/// Whether an instruction that takes no part in control and accesses no local has a result.
#[tactic(auto, unfolding(crate::specs::Emitting::basic_of))]
pub fn basic_result(instr: &Instr) -> Option<bool>
    ensures { MatchOption result (basic_of instr.now ≡ None) (λ given. (b : Basic) × (basic_of instr.now ≡ Some b) × (bit given ≡ gives b)) }
{
    match instr {
        Instr::Nop => Some(false),
        Instr::Drop => Some(false),
        Instr::Select => Some(true),
        Instr::Const(_) => Some(true),
        Instr::Num(_) => Some(true),
        Instr::GlobalGet(_) => Some(true),
        Instr::GlobalSet(_) => Some(false),
        Instr::Load { .. } => Some(true),
        Instr::Store { .. } => Some(false),
        Instr::MemorySize => Some(true),
        Instr::MemoryGrow => Some(true),
        Instr::MemoryCopy => Some(false),
        Instr::MemoryFill => Some(false),
        Instr::Unreachable => None,
        Instr::Return => None,
        Instr::Br(_) => None,
        Instr::BrIf(_) => None,
        Instr::BrTable { .. } => None,
        Instr::Call(_) => None,
        Instr::CallIndirect(_) => None,
        Instr::LocalGet(_) => None,
        Instr::LocalSet(_) => None,
        Instr::LocalTee(_) => None,
        Instr::Block { .. } => None,
        Instr::Loop { .. } => None,
        Instr::If { .. } => None,
    }
}

/// Puts what an instruction stands for that takes no part in control and accesses no local.
pub fn put_basic(
    out: &mut Vec<Stmt>,
    names: &Names,
    at: &mut Position,
    instr: &Instr,
    given: bool,
) -> Result<(), AllocError>
    requires is { (b : Basic) × (basic_of instr.now ≡ Some b) × (bit given ≡ gives b) }
    requires typed { TypedAt at.old.typing (in_front instr.now done) }
    requires ready { Ready names.now at.old }
    ensures { OnOk result (Put names.now at.old at.new instr.now out.old.items out.new.items) }
{
    let op = copy_leaf(at.alloc, instr)?;
    at.typing.advance(instr)?;
    let kept = at.typing.types().len() - bit(given);
    let args = take_operands(at.alloc, &mut at.slots, kept)?;
    let to = put_to(names, at, given)?;
    out.push(Stmt::Plain { op, args, to })?;
    Ok(())
}
