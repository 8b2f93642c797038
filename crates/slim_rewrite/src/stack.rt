//! The slots of operands.

ghost use Rattle.std.specs.Prelude.{◌≡◌, true, false, IfOk, OnOk};
ghost use Rattle.slim_laws.specs.Emit.{elem};
ghost use Rattle.slim_rewrite.specs.Walking.{slot_in, Flushed, Good, IsKeptTop, IsTop, Kept, Taken};

use flow_rewrite::put_operands;
use std::alloc::{AllocError, Global};
use wa_model::Operand;
use wa_types::Instr;

/// Where a walk over the statements of a function is.
#[derive(Drop)]
pub struct Walk {
    pub alloc: Global,
    /// The first local that is a slot.
    pub low: u32,
    /// By slot, where it stands on the stack, if it does.
    pub places: Vec<usize>,
    /// The slots of all operands, the lowest first.
    pub stack: Vec<u32>,
    /// So many of them hold their operands. The others' stand on the operand stack of the slim code.
    pub set: usize,
    /// So many stand below the construct that the walk is in.
    pub floor: usize,
    /// By slot, whether the next one stands at another height.
    pub apart: Vec<bool>,
    /// The piece so far.
    pub piece: Vec<Instr>,
}

/// Whether a local is a slot.
pub fn is_slot(at: &Walk, x: u32) -> bool
    ensures { result ≡ slot_in at.now x }
{
    if x < at.low {
        return false;
    }
    ((x - at.low) as usize) < at.places.len()
}

/// Whether a slot stands on the stack.
pub(crate) fn stands(at: &Walk, x: u32) -> bool
    requires good { Good at.now }
    requires slot { slot_in at.now x ≡ true }
    ensures { result ≡ elem x at.now.stack.items }
{
    let place = at.places[(x - at.low) as usize];
    if place >= at.stack.len() {
        return false;
    }
    at.stack[place] == x
}

/// Whether the topmost operand is this slot's, and stands on the operand stack.
pub(crate) fn is_kept_top(at: &Walk, x: u32) -> bool
    ensures { result ≡ true → IsKeptTop at.now x }
{
    if at.set >= at.stack.len() {
        return false;
    }
    at.stack[at.stack.len() - 1] == x
}

/// Keeps a result on the operand stack. False where its local is no slot, or stands for another operand.
pub fn keep(at: &mut Walk, to: u32) -> Result<bool, AllocError>
    requires { Good at.old }
    ensures { IfOk result (λ kept. kept ≡ true → Kept at.old at.new to) }
{
    if !is_slot(at, to) {
        return Ok(false);
    }
    if stands(at, to) {
        return Ok(false);
    }
    let slot = (to - at.low) as usize;
    at.places[slot] = at.stack.len();
    at.stack.push(to)?;
    Ok(true)
}

/// Sets the slots of all operands that stand on the operand stack.
#[inline(never)]
pub fn flush(at: &mut Walk) -> Result<(), AllocError>
    requires { Good at.old }
    ensures { OnOk result (Flushed at.old at.new) }
{
    let mut place = at.stack.len();
    'slots: while place > at.set {
        place -= 1;
        at.piece.push(Instr::LocalSet(at.stack[place]))?;
    }
    at.set = at.stack.len();
    Ok(())
}

/// Whether the operands are the topmost slots.
pub fn is_top(stack: &[u32], args: &[Operand]) -> bool
    ensures { result ≡ true → IsTop stack.now args.now }
{
    if stack.len() < args.len() {
        return false;
    }
    let mut place = stack.len() - args.len();
    for arg in args {
        match arg {
            Operand::Local(x) => {
                if stack[place] != *x {
                    return false;
                }
            }
            Operand::Const(_) => return false,
        }
        place += 1;
    }
    true
}

/// Takes operands: from the operand stack where they stand there, and there alone if so told, else from their slots.
/// False where they aren't the topmost ones of the construct.
pub fn take(at: &mut Walk, args: &[Operand], alone: bool) -> Result<bool, AllocError>
    requires { Good at.old }
    ensures { IfOk result (λ taken. taken ≡ true → Taken at.old at.new args.now alone) }
{
    if !is_top(&at.stack, args) {
        return Ok(false);
    }
    let left = at.stack.len() - args.len();
    if left == at.set || (left > at.set && !alone) {
        at.stack.truncate(left);
        return Ok(true);
    }
    if left < at.floor {
        return Ok(false);
    }
    flush(at)?;
    put_operands(&mut at.piece, args)?;
    at.stack.truncate(left);
    at.set = left;
    Ok(true)
}
