//! The calls that keep each local, told from the last call on.
//!
//! A local's calls are told in rows. What its set has is kept by each call that comes, so at a call nothing is noted of such a local; only
//! before a set changes, the calls are told for which it was as it is. A call goes over its stack, and is told of what is there that its set
//! hasn't.

ghost use Rattle.std.specs.Prelude.{◌≡◌, ◌<◌, ◌≤◌, ◌+◌, ◌-◌, ◌++◌, ◌&&◌, [], not, suc, length, nat_eq, replicate, true, IfOk, OnOk, if◌then◌else◌};
ghost use Rattle.std.specs.List.{list_any};
ghost use Rattle.wa_types.specs.Syntax.{done};
ghost use Rattle.wa_types.specs.View.{in_front};
ghost use Rattle.run_theory.specs.Flat.{last_of, no_more};
ghost use Rattle.run_theory.specs.FlatView.{stmt_in_front};
ghost use Rattle.guard_form.specs.Grouping.{is_place};
ghost use Rattle.flow_rewrite.specs.Emitting.{Rises};
ghost use Rattle.call_frames.specs.CallRows.{counted};
ghost use Rattle.live_locals.specs.Rows.{numbered_from};
ghost use Rattle.live_locals.specs.Sets.{has};
ghost use Rattle.live_locals.specs.Keeping.{AllOpen, CallKept, CallPut, Holds, HoldsMore, Settles, Stands, is_it, is_local, op_touches, touches};

use call_frames::{Calls, LaterCalls};
use std::alloc::{AllocError, Global};
use wa_model::{Operand, Stmt};
use wa_types::Instr;

/// The calls that keep each local: how many are still to come, since which call each local's set is as it is, and the calls that are told.
#[derive(Drop)]
pub(crate) struct Keeping {
    pub(crate) left: u32,
    pub(crate) since: Vec<u32>,
    pub(crate) rows: Vec<LaterCalls>,
}

/// So many calls are to come, and none keeps one of so many locals so far.
pub(crate) fn nothing_kept(alloc: Global, left: u32, count: usize) -> Result<Keeping, AllocError>
    ensures left { IfOk result (λ v. v.left ≡ left) }
    ensures since { IfOk result (λ v. v.since.items ≡ replicate count left) }
    ensures rows { IfOk result (λ v. v.rows.items ≡ replicate count []) }
{
    let since = vec![in alloc; left; count]?;
    let mut rows = Vec::with_capacity(alloc, count)?;
    for _local in 0..count {
        rows.push(LaterCalls::none(alloc))?;
    }
    Ok(Keeping { left, since, rows })
}

/// Tells the calls from the first up to an end, where told.
fn put_told(rows: &mut LaterCalls, told: bool, first: u32, end: u32) -> Result<(), AllocError>
    requires { first ≤ end }
    ensures { OnOk result (rows.new ≡ (if told then counted first (end - first) else []) ++ rows.old) }
{
    if !told {
        return Ok(());
    }
    if end <= first {
        return Ok(());
    }
    rows.put(first, end - first - 1)
}

/// Tells the calls of a local.
pub(crate) fn settle(keeping: &mut Keeping, set: &[bool], at: usize) -> Result<(), AllocError>
    requires { Stands (length set.now) keeping.old }
    ensures { OnOk result (Settles set.now (λ x. nat_eq x at) keeping.old keeping.new) }
{
    if at >= set.len() {
        return Ok(());
    }
    let end = keeping.since[at];
    put_told(&mut keeping.rows[at], set[at], keeping.left, end)?;
    keeping.since[at] = keeping.left;
    Ok(())
}

/// Tells those of the local that is told.
pub(crate) fn settle_told(
    keeping: &mut Keeping,
    set: &[bool],
    to: Option<u32>,
) -> Result<(), AllocError>
    requires { Stands (length set.now) keeping.old }
    ensures { OnOk result (Settles set.now (λ x. is_it x to) keeping.old keeping.new) }
{
    match to {
        Some(local) => settle(keeping, set, local as usize),
        None => Ok(()),
    }
}

/// Tells those of an operand.
fn settle_operand(keeping: &mut Keeping, set: &[bool], operand: Operand) -> Result<(), AllocError>
    requires { Stands (length set.now) keeping.old }
    ensures { OnOk result (Settles set.now (λ x. is_local x operand) keeping.old keeping.new) }
{
    match operand {
        Operand::Local(local) => settle(keeping, set, local as usize),
        Operand::Const(_) => Ok(()),
    }
}

/// Tells those of operands.
fn settle_operands(
    keeping: &mut Keeping,
    set: &[bool],
    operands: &[Operand],
) -> Result<(), AllocError>
    requires { Stands (length set.now) keeping.old }
    ensures { OnOk result (Settles set.now (λ x. list_any (is_local x) operands.now) keeping.old keeping.new) }
{
    for at in 0..operands.len() {
        settle_operand(keeping, set, operands[at])?;
    }
    Ok(())
}

/// Tells those of some locals.
fn settle_slots(keeping: &mut Keeping, set: &[bool], slots: &[u32]) -> Result<(), AllocError>
    requires { Stands (length set.now) keeping.old }
    ensures { OnOk result (Settles set.now (λ x. list_any (nat_eq x) slots.now) keeping.old keeping.new) }
{
    for at in 0..slots.len() {
        settle(keeping, set, slots[at] as usize)?;
    }
    Ok(())
}

/// Tells those of all locals.
pub(crate) fn settle_all(keeping: &mut Keeping, set: &[bool]) -> Result<(), AllocError>
    requires { Stands (length set.now) keeping.old }
    ensures { OnOk result (Settles set.now (λ x. true) keeping.old keeping.new) }
{
    for local in 0..set.len() {
        settle(keeping, set, local)?;
    }
    Ok(())
}

/// Tells those of the local of a computation.
fn settle_op(keeping: &mut Keeping, set: &[bool], op: &Instr) -> Result<(), AllocError>
    requires { Stands (length set.now) keeping.old }
    ensures { OnOk result (Settles set.now (λ x. op_touches x (in_front op.now done)) keeping.old keeping.new) }
{
    match op {
        Instr::LocalGet(local) => settle(keeping, set, *local as usize),
        Instr::LocalSet(local) => settle(keeping, set, *local as usize),
        Instr::LocalTee(local) => settle(keeping, set, *local as usize),
        _ => Ok(()),
    }
}

/// Tells those of the locals that a statement touches which holds no others and calls nothing.
pub(crate) fn settle_touched(
    keeping: &mut Keeping,
    set: &[bool],
    stmt: &Stmt,
) -> Result<(), AllocError>
    requires { Stands (length set.now) keeping.old }
    ensures { OnOk result (Settles set.now (λ x. touches x (stmt_in_front stmt.now no_more)) keeping.old keeping.new) }
{
    match stmt {
        Stmt::Plain { op, args, to } => {
            settle_told(keeping, set, *to)?;
            settle_op(keeping, set, op)?;
            settle_operands(keeping, set, args)
        }
        Stmt::Move { to, from } => {
            settle(keeping, set, *to as usize)?;
            settle_operand(keeping, set, *from)
        }
        _ => settle_all(keeping, set),
    }
}

/// Tells that the next call keeps a local that its set hasn't, unless it is told. Of a local that its set has it's told once the set
/// changes.
fn hold(keeping: &mut Keeping, set: &[bool], at: usize) -> Result<(), AllocError>
    requires { Stands (length set.now) keeping.old }
    ensures { OnOk result (HoldsMore set.now at keeping.old keeping.new) }
{
    if at >= set.len() {
        return Ok(());
    }
    if set[at] {
        return Ok(());
    }
    if keeping.since[at] <= keeping.left {
        return Ok(());
    }
    keeping.rows[at].put(keeping.left, 0)?;
    keeping.since[at] = keeping.left;
    Ok(())
}

/// Tells that it keeps some locals.
fn hold_slots(keeping: &mut Keeping, set: &[bool], slots: &[u32]) -> Result<(), AllocError>
    requires stands { Stands (length set.now) keeping.old }
    requires untold { AllOpen (length set.now) keeping.old }
    ensures { OnOk result (Holds set.now (λ x. list_any (nat_eq x) slots.now && not (has set.now x)) keeping.old keeping.new) }
{
    for at in 0..slots.len() {
        hold(keeping, set, slots[at] as usize)?;
    }
    Ok(())
}

/// Whether the call at this place is numbered.
fn is_numbered(numbers: &[u32], place: u32) -> bool
    requires { Rises numbers.now }
    ensures { result ≡ is_place numbers.now place }
{
    numbers.binary_search(&place).is_ok()
}

/// The call at this place keeps its stack and what its set has, where it is numbered: `set` tells what is read first from just after the
/// call on.
fn keep_call(
    keeping: &mut Keeping,
    numbers: &[u32],
    place: u32,
    set: &[bool],
    stack: &[u32],
) -> Result<(), AllocError>
    requires rises { Rises numbers.now }
    requires stands { Stands (length set.now) keeping.old }
    requires left { keeping.old.left ≡ numbered_from numbers.now 0 (suc place) }
    ensures { OnOk result (CallKept (is_place numbers.now place) set.now stack.now keeping.old keeping.new) }
{
    if !is_numbered(numbers, place) {
        return Ok(());
    }
    keeping.left -= 1;
    hold_slots(keeping, set, stack)
}

/// Tells the calls of the last entries of a stack, as many as a call takes.
fn settle_taken(
    keeping: &mut Keeping,
    set: &[bool],
    stack: &[u32],
    args: u32,
) -> Result<(), AllocError>
    requires { Stands (length set.now) keeping.old }
    ensures { OnOk result (Settles set.now (λ x. list_any (nat_eq x) (last_of args stack.now)) keeping.old keeping.new) }
{
    let left = stack.len().saturating_sub(args as usize);
    settle_slots(keeping, set, &stack[left..])
}

/// The call at this place keeps its stack and what its set has, where it is numbered. All calls are told of what it takes, which it reads.
#[inline(never)]
pub(crate) fn put_call(
    keeping: &mut Keeping,
    numbers: &[u32],
    place: u32,
    set: &[bool],
    stack: &[u32],
    args: u32,
) -> Result<(), AllocError>
    requires rises { Rises numbers.now }
    requires stands { Stands (length set.now) keeping.old }
    requires left { keeping.old.left ≡ numbered_from numbers.now 0 (suc place) }
    ensures { OnOk result (CallPut (is_place numbers.now place) set.now stack.now (last_of args stack.now) keeping.old keeping.new) }
{
    keep_call(keeping, numbers, place, set, stack)?;
    settle_taken(keeping, set, stack, args)
}

/// The calls that keep each local.
pub(crate) fn all_told(alloc: Global, keeping: Keeping) -> Result<Vec<Calls>, AllocError>
    ensures { IfOk result (λ v. v.items ≡ keeping.rows.items) }
{
    let Keeping {
        left: _,
        since: _,
        rows,
    } = keeping;
    let mut all = Vec::with_capacity(alloc, rows.len())?;
    for later in rows {
        all.push(later.all())?;
    }
    Ok(all)
}
