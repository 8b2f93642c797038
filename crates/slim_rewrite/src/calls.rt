//! Calls, with a number and without.

ghost use Rattle.std.specs.Prelude.{◌≡◌, ◌≤◌, ◌<◌, ◌+◌, ◌^◌, ℕ, List, length, true, false, IfOk};
ghost use Rattle.std.specs.Option.{option_map};
ghost use Rattle.wa_types.specs.Syntax.{done, plain};
ghost use Rattle.wa_types.specs.View.{in_front};
ghost use Rattle.run_theory.specs.Flat.{calls, no_more};
ghost use Rattle.guard_form.specs.Grouping.{is_place};
ghost use Rattle.flow_rewrite.specs.Emitting.{Rises};
ghost use Rattle.slim_rewrite.specs.Walking.{Good};
ghost use Rattle.flow_rewrite.specs.UnitView.{callee_of};
ghost use Rattle.guard_form.specs.Pieces.{call_to, sole_callee};
ghost use Rattle.slim_rewrite.specs.Coming.{Ready};
ghost use Rattle.slim_rewrite.specs.Steps.{Calls, Put, PutNumbered};

use crate::branches::put_free_call;
use crate::moves::keep_told;
use crate::sequence::{Head, Sequence, open_unit};
use crate::stack::{Walk, flush};
use flow_rewrite::Target;
use std::alloc::AllocError;
use wa_types::Instr;

/// A call of a flat function: its instruction, the locals of the operand stack, how many of the last ones it takes, and
/// the local of its result.
#[derive(Clone, Copy)]
pub struct FlatCall<'a> {
    pub op: &'a Instr,
    pub stack: &'a [u32],
    pub args: u32,
    pub to: Option<u32>,
}

/// Whether the call at this place is numbered.
pub(crate) fn is_numbered(numbers: &[u32], place: u32) -> bool
    requires { Rises numbers.now }
    ensures { result ≡ is_place numbers.now place }
{
    numbers.binary_search(&place).is_ok()
}

/// What a call goes to, where the instruction is one.
pub(crate) fn target_of(op: &Instr) -> Option<Target>
    ensures calls { Calls result (in_front op.now done) }
    ensures sole { option_map callee_of result ≡ sole_callee (in_front op.now done) }
{
    match op {
        Instr::Call(func) => Some(Target::Direct(*func)),
        Instr::CallIndirect(sort) => Some(Target::Indirect(*sort)),
        _ => None,
    }
}

/// Whether both are the same slots.
fn same_slots(a: &[u32], b: &[u32]) -> bool
    ensures { result ≡ true → a.now ≡ b.now }
{
    a == b
}

/// Puts a numbered call. False where its stack isn't that of the walk.
fn put_numbered_call(
    at: &mut Walk,
    all: &mut Sequence,
    target: Target,
    stack: &[u32],
    args: u32,
    to: Option<u32>,
) -> Result<bool, AllocError>
    requires good { Good at.old }
    requires goes { all.old.ended ≡ false }
    requires args { args ≤ length stack.now }
    requires room { all.old.place + 1 < 2 ^ 32 }
    ensures { IfOk result (λ put. put ≡ true → PutNumbered at.old all.old at.new all.new (calls (plain (call_to (callee_of target)) done) stack.now args to)) }
{
    if !same_slots(&at.stack, stack) {
        return Ok(false);
    }
    let kept = stack.len() - args as usize;
    if kept < at.floor {
        return Ok(false);
    }
    flush(at)?;
    let slots = Vec::from_slice(at.alloc, &stack[kept..])?;
    let head = Head::Call {
        slots,
        target,
        to: None,
    };
    open_unit(at, all, head)?;
    at.stack.truncate(kept);
    at.set = kept;
    all.place += 1;
    keep_told(at, to)
}

/// Puts a call. False where its arguments aren't the topmost operands.
#[inline(never)]
pub fn put_call(
    numbers: &[u32],
    at: &mut Walk,
    all: &mut Sequence,
    call: FlatCall<'_>,
) -> Result<bool, AllocError>
    requires rises { Rises numbers.now }
    requires good { Good at.old }
    requires goes { all.old.ended ≡ false }
    requires ready { Ready all.old.place (calls (in_front call.op.now done) call.stack.now call.args call.to no_more) }
    ensures { IfOk result (λ put. put ≡ true
        → Put numbers.now at.old all.old at.new all.new (calls (in_front call.entry.op.now done) call.entry.stack.now call.entry.args call.entry.to)) }
{
    if is_numbered(numbers, all.place) {
        let Some(target) = target_of(call.op) else {
            return Ok(false);
        };
        return put_numbered_call(at, all, target, call.stack, call.args, call.to);
    }
    all.place += 1;
    put_free_call(at, call.op, call.stack, call.args, call.to)
}
