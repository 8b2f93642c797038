//! Plain statements, and moves.

ghost use Rattle.std.specs.Prelude.{◌≡◌, ℕ, true, false, IfOk};
ghost use Rattle.wa_types.specs.Syntax.{local_get, local_set, done, plain};
ghost use Rattle.wa_types.specs.View.{in_front};
ghost use Rattle.run_theory.specs.Flat.{all_got, followed_by, got, set_to};
ghost use Rattle.run_theory.specs.FlatFits.{ComputesFit};
ghost use Rattle.wa_types.specs.Leaves.{is_leaf};
ghost use Rattle.slim_rewrite.specs.Walking.{slot_in, Assigned, Good, KeptTold, Stepped};

use crate::operators::taken_by;
use crate::stack::{Walk, flush, is_kept_top, is_slot, keep, stands, take};
use flow_rewrite::put_copy;
use std::alloc::AllocError;
use wa_model::Operand;
use wa_types::Instr;

/// Puts a result where it is told. False where it can't be kept.
pub fn keep_told(at: &mut Walk, to: Option<u32>) -> Result<bool, AllocError>
    requires { Good at.old }
    ensures { IfOk result (λ kept. kept ≡ true → KeptTold at.old at.new to) }
{
    match to {
        Some(x) => keep(at, x),
        None => Ok(true),
    }
}

/// Puts the slim code of a plain statement. False where its operands aren't the topmost ones.
pub fn put_plain(
    at: &mut Walk,
    op: &Instr,
    args: &[Operand],
    to: Option<u32>,
) -> Result<bool, AllocError>
    requires good { Good at.old }
    requires leaf { is_leaf op.now ≡ true }
    requires fits { (n : ℕ) × ComputesFit n (in_front op.now done) to }
    ensures { IfOk result (λ put. put ≡ true → Stepped at.old at.new false (λ c. all_got args.now (followed_by (in_front op.now done) (set_to to c)))) }
{
    let Some(count) = taken_by(at, op) else {
        return Ok(false);
    };
    if count != args.len() {
        return Ok(false);
    }
    if !take(at, args, false)? {
        return Ok(false);
    }
    put_copy(at.alloc, &mut at.piece, op)?;
    keep_told(at, to)
}

/// Sets a local from the topmost operand, or keeps that for its slot. False where it can't be kept.
fn put_set(at: &mut Walk, to: u32) -> Result<bool, AllocError>
    requires { Good at.old }
    ensures { IfOk result (λ put. put ≡ true → Assigned at.old at.new to) }
{
    if is_slot(at, to) {
        return keep(at, to);
    }
    at.piece.push(Instr::LocalSet(to))?;
    Ok(true)
}

/// Puts a move from a local that is no slot.
fn move_local(at: &mut Walk, to: u32, from: u32) -> Result<bool, AllocError>
    requires good { Good at.old }
    requires own { slot_in at.old from ≡ false }
    ensures { IfOk result (λ put. put ≡ true → Stepped at.old at.new false (λ c. plain (local_get from) (plain (local_set to) c))) }
{
    at.piece.push(Instr::LocalGet(from))?;
    put_set(at, to)
}

/// Puts a move from a slot that is read again, and is set. False where it isn't on the stack.
fn get_again(at: &mut Walk, to: u32, from: u32) -> Result<bool, AllocError>
    requires good { Good at.old }
    requires slot { slot_in at.old from ≡ true }
    ensures { IfOk result (λ put. put ≡ true → Stepped at.old at.new false (λ c. plain (local_get from) (plain (local_set to) c))) }
{
    if !stands(at, from) {
        return Ok(false);
    }
    flush(at)?;
    at.piece.push(Instr::LocalGet(from))?;
    put_set(at, to)
}

/// Puts a move from a slot that is read again: a `local.tee` where its operand is the topmost on the operand stack, and stays
/// there. False where it isn't on the stack.
fn move_again(at: &mut Walk, to: u32, from: u32) -> Result<bool, AllocError>
    requires good { Good at.old }
    requires slot { slot_in at.old from ≡ true }
    ensures { IfOk result (λ put. put ≡ true → Stepped at.old at.new false (λ c. plain (local_get from) (plain (local_set to) c))) }
{
    if is_slot(at, to) {
        return get_again(at, to, from);
    }
    if !is_kept_top(at, from) {
        return get_again(at, to, from);
    }
    at.piece.push(Instr::LocalTee(to))?;
    Ok(true)
}

/// Puts a move of the topmost operand. False where that isn't the one to be moved.
fn move_top(at: &mut Walk, to: u32, from: Operand) -> Result<bool, AllocError>
    requires { Good at.old }
    ensures { IfOk result (λ put. put ≡ true → Stepped at.old at.new false (λ c. got from (plain (local_set to) c))) }
{
    if !take(at, &[from], false)? {
        return Ok(false);
    }
    put_set(at, to)
}

/// Puts a move; what is read again stays on the stack. False where its operand isn't there.
pub fn put_move(at: &mut Walk, to: u32, from: Operand, again: bool) -> Result<bool, AllocError>
    requires { Good at.old }
    ensures { IfOk result (λ put. put ≡ true → Stepped at.old at.new false (λ c. got from (plain (local_set to) c))) }
{
    match from {
        Operand::Const(_) => Ok(false),
        Operand::Local(x) => {
            if !is_slot(at, x) {
                return move_local(at, to, x);
            }
            if again {
                return move_again(at, to, x);
            }
            move_top(at, to, from)
        }
    }
}
