//! Branches, and calls without number.

ghost use Rattle.std.specs.Prelude.{◌≡◌, ◌≤◌, length, map, true, false, IfOk, OnOk};
ghost use Rattle.wa_types.specs.Syntax.{br, br_if, br_table, unreachable, done, plain};
ghost use Rattle.wa_types.specs.View.{in_front};
ghost use Rattle.wa_model.specs.declared.flat.Operand.TheVariants as O;
ghost use Rattle.run_theory.specs.Flat.{followed_by, got, last_of, set_to, slots_got};
ghost use Rattle.run_theory.specs.FlatFits.{IsCallCode};
ghost use Rattle.wa_types.specs.Leaves.{is_leaf};
ghost use Rattle.slim_rewrite.specs.Walking.{Ended, Good, Stepped};

use crate::moves::keep_told;
use crate::stack::{Walk, flush, take};
use flow_rewrite::put_copy;
use std::alloc::{AllocError, Global};
use wa_model::Operand;
use wa_types::Instr;

/// Puts a branch, behind which nothing stands.
pub fn put_br(at: &mut Walk, label: u32) -> Result<(), AllocError>
    requires { Good at.old }
    ensures { OnOk result (Ended at.old at.new (plain (br label) done)) }
{
    flush(at)?;
    at.piece.push(Instr::Br(label))?;
    Ok(())
}

/// Puts a trap, behind which nothing stands.
pub fn put_unreachable(at: &mut Walk) -> Result<(), AllocError>
    requires { Good at.old }
    ensures { OnOk result (Ended at.old at.new (plain unreachable done)) }
{
    at.piece.push(Instr::Unreachable)?;
    Ok(())
}

/// Puts a branch by a condition. False where that isn't the topmost operand.
pub fn put_br_if(at: &mut Walk, cond: Operand, label: u32) -> Result<bool, AllocError>
    requires { Good at.old }
    ensures { IfOk result (λ put. put ≡ true → Stepped at.old at.new false (λ c. got cond (plain (br_if label) c))) }
{
    if !take(at, &[cond], true)? {
        return Ok(false);
    }
    at.piece.push(Instr::BrIf(label))?;
    Ok(true)
}

/// Puts a branch by a table, behind which nothing stands. False where its index isn't the topmost operand.
pub fn put_br_table(
    at: &mut Walk,
    index: Operand,
    labels: &[u32],
    last: u32,
) -> Result<bool, AllocError>
    requires { Good at.old }
    ensures { IfOk result (λ put. put ≡ true → Ended at.old at.new (got index (plain (br_table labels.now last) done))) }
{
    if !take(at, &[index], true)? {
        return Ok(false);
    }
    let labels = Vec::from_slice(at.alloc, labels)?;
    at.piece.push(Instr::BrTable { labels, last })?;
    Ok(true)
}

/// These slots as operands.
fn operands(alloc: Global, slots: &[u32]) -> Result<Vec<Operand>, AllocError>
    ensures { IfOk result (λ v. v.items ≡ map O.Local slots.now) }
{
    let mut out = Vec::with_capacity(alloc, slots.len())?;
    for slot in slots {
        out.push(Operand::Local(*slot))?;
    }
    Ok(out)
}

/// Puts a call without number. False where its arguments aren't the topmost operands.
pub fn put_free_call(
    at: &mut Walk,
    op: &Instr,
    stack: &[u32],
    args: u32,
    to: Option<u32>,
) -> Result<bool, AllocError>
    requires good { Good at.old }
    requires leaf { is_leaf op.now ≡ true }
    requires call { IsCallCode (in_front op.now done) }
    requires args { args ≤ length stack.now }
    ensures { IfOk result (λ put. put ≡ true → Stepped at.old at.new true (λ c. slots_got (last_of args stack.now) (followed_by (in_front op.now done) (set_to to c)))) }
{
    let kept = stack.len() - args as usize;
    let slots = operands(at.alloc, &stack[kept..])?;
    if !take(at, &slots, true)? {
        return Ok(false);
    }
    put_copy(at.alloc, &mut at.piece, op)?;
    keep_told(at, to)
}
