//! Blocks, loops and ifs.

ghost use Rattle.std.specs.Prelude.{◌≡◌, ◌&&◌, ℕ, true, not, Some, IfOk, OnOk};
ghost use Rattle.wa_types.specs.Syntax.{a_block, a_loop, branch};
ghost use Rattle.wa_types.specs.View.{code};
ghost use Rattle.flow_rewrite.specs.Putting.{Puts};
ghost use Rattle.slim_rewrite.specs.Walking.{Good};
ghost use Rattle.slim_rewrite.specs.SequenceView.{call_open};
ghost use Rattle.slim_rewrite.specs.Inside.{condition_got, AreFree, Claimed, ConditionTold, Decided, Entered, Left, Nested, Same, SetAgain};

use crate::sequence::{Head, Sequence, Written, open_unit};
use crate::stack::{Walk, flush, is_top, keep};
use flow_rewrite::put_operand;
use std::alloc::AllocError;
use std::mem;
use wa_model::Operand;
use wa_types::Instr;

/// What stands outside of a construct: the piece, how many slots stand below the construct outside, and how many below this one.
#[derive(Drop)]
pub struct Outside {
    pub piece: Vec<Instr>,
    pub floor: usize,
    pub height: usize,
}

/// Goes into a construct.
#[inline(never)]
pub fn enter(at: &mut Walk) -> Outside
    ensures { Entered at.old at.new result }
{
    let piece = mem::replace(&mut at.piece, Vec::new(at.alloc));
    let height = at.stack.len();
    let floor = mem::replace(&mut at.floor, height);
    Outside {
        piece,
        floor,
        height,
    }
}

/// Leaves a construct. What its end has left stays where so told.
#[inline(never)]
pub fn leave(at: &mut Walk, outside: Outside, kept: bool)
    ensures { Left at.old at.new outside kept }
{
    at.floor = outside.floor;
    at.piece = outside.piece;
    if kept {
        return;
    }
    at.stack.truncate(outside.height);
    at.set = outside.height;
}

/// Whether what the end of a loop leaves stays: not where that isn't reached.
pub fn stays(kept: bool, written: &Written) -> bool
    ensures { result ≡ (kept && not written.now.ended) }
{
    kept && !written.ended
}

/// The slot that is told, behind a loop whose end isn't reached.
pub fn unreached(kept: bool, written: &Written, behind: Option<u32>) -> Option<u32>
    ensures { (x : ℕ) → result ≡ Some x → (kept ≡ true) × (written.now.ended ≡ true) }
{
    if !kept {
        return None;
    }
    if !written.ended {
        return None;
    }
    behind
}

/// Counts a slot as set, behind what is never left. False where it isn't one, or stands for another operand.
#[inline(never)]
pub fn claim(at: &mut Walk, slot: u32) -> Result<bool, AllocError>
    requires { Good at.old }
    ensures { IfOk result (λ claimed. claimed ≡ true → Claimed at.old at.new) }
{
    if !keep(at, slot)? {
        return Ok(false);
    }
    at.set = at.stack.len();
    Ok(true)
}

/// Puts a block whose body is kept apart.
#[inline(never)]
pub fn put_block_apart(
    at: &mut Walk,
    all: &mut Sequence,
    inner: Box<Written>,
) -> Result<(), AllocError>
    requires { Good at.old }
    ensures { OnOk result (Nested a_block at.old all.old at.new all.new inner.value) }
{
    put_block(at, all, Box::into_inner(inner))
}

/// Puts a block: in the piece, or as a unit where it holds a numbered call.
fn put_block(at: &mut Walk, all: &mut Sequence, inner: Written) -> Result<(), AllocError>
    requires { Good at.old }
    ensures { OnOk result (Nested a_block at.old all.old at.new all.new inner) }
{
    all.place = inner.place;
    let pieces = inner.pieces;
    if pieces.units.is_empty() {
        at.piece.push(Instr::Block {
            result: None,
            body: pieces.first,
        })?;
        return Ok(());
    }
    open_unit(at, all, Head::Block(pieces))
}

/// Puts a loop whose body is kept apart.
#[inline(never)]
pub fn put_loop_apart(
    at: &mut Walk,
    all: &mut Sequence,
    inner: Box<Written>,
) -> Result<(), AllocError>
    requires { Good at.old }
    ensures { OnOk result (Nested a_loop at.old all.old at.new all.new inner.value) }
{
    put_loop(at, all, Box::into_inner(inner))
}

/// Puts a loop: in the piece, or as a unit where it holds a numbered call.
fn put_loop(at: &mut Walk, all: &mut Sequence, inner: Written) -> Result<(), AllocError>
    requires { Good at.old }
    ensures { OnOk result (Nested a_loop at.old all.old at.new all.new inner) }
{
    all.place = inner.place;
    let pieces = inner.pieces;
    if pieces.units.is_empty() {
        at.piece.push(Instr::Loop {
            result: None,
            body: pieces.first,
        })?;
        return Ok(());
    }
    open_unit(at, all, Head::Loop(pieces))
}

/// Takes a condition: whether it stands alone on the operand stack, else all slots are set. Nothing where it isn't the
/// topmost operand of the construct.
#[inline(never)]
pub fn take_condition(at: &mut Walk, x: u32) -> Result<Option<bool>, AllocError>
    requires { Good at.old }
    ensures { IfOk result (λ o. ConditionTold at.old at.new x o) }
{
    if !is_top(&at.stack, &[Operand::Local(x)]) {
        return Ok(None);
    }
    let left = at.stack.len() - 1;
    if left < at.floor {
        return Ok(None);
    }
    if left == at.set {
        at.stack.truncate(left);
        return Ok(Some(true));
    }
    flush(at)?;
    at.stack.truncate(left);
    at.set = left;
    Ok(Some(false))
}

/// Puts an `if` without numbered calls.
fn put_free_if(
    at: &mut Walk,
    cond: Operand,
    direct: bool,
    then_arm: Vec<Instr>,
    else_arm: Vec<Instr>,
) -> Result<(), AllocError>
    requires { Good at.old }
    ensures same { OnOk result (Same at.old at.new) }
    ensures puts { OnOk result (Puts at.old.piece.items at.new.piece.items (λ c. condition_got direct cond (branch None (code then_arm.items) (code else_arm.items) c))) }
{
    let instr = Instr::If {
        result: None,
        then_arm,
        else_arm,
    };
    if direct {
        at.piece.push(instr)?;
        return Ok(());
    }
    put_operand(&mut at.piece, cond)?;
    at.piece.push(instr)?;
    Ok(())
}

/// Sets the slot of a condition that stands on the operand stack.
fn set_condition(at: &mut Walk, cond: Operand, direct: bool) -> Result<(), AllocError>
    requires { Good at.old }
    ensures { OnOk result (SetAgain at.old at.new cond direct) }
{
    if !direct {
        return Ok(());
    }
    match cond {
        Operand::Local(x) => {
            at.piece.push(Instr::LocalSet(x))?;
            Ok(())
        }
        Operand::Const(_) => Ok(()),
    }
}

/// Whether neither arm holds a numbered call.
fn are_free(then_arm: &Written, else_arm: &Written) -> bool
    ensures { AreFree then_arm.now else_arm.now result }
{
    if !then_arm.pieces.units.is_empty() {
        return false;
    }
    else_arm.pieces.units.is_empty()
}

/// Whether a unit is a call.
fn is_call(head: &Head) -> bool
    ensures { result ≡ call_open (Some head.now) }
{
    match head {
        Head::Call { .. } => true,
        Head::Block(_) => false,
        Head::Loop(_) => false,
        Head::If { .. } => false,
    }
}

/// Whether a condition that stands on the operand stack may stay there in front of a unit: not in a piece that stands with a call.
fn may_stay(all: &Sequence, direct: bool) -> bool
    ensures { result ≡ (direct && not (call_open all.now.open)) }
{
    if !direct {
        return false;
    }
    match &all.open {
        None => true,
        Some(head) => !is_call(head),
    }
}

/// Puts an `if` whose arms are kept apart.
#[inline(never)]
pub fn put_if_apart(
    at: &mut Walk,
    all: &mut Sequence,
    cond: Operand,
    direct: bool,
    then_arm: Box<Written>,
    else_arm: Box<Written>,
) -> Result<(), AllocError>
    requires { Good at.old }
    ensures { OnOk result (Decided cond direct at.old all.old at.new all.new then_arm.value else_arm.value) }
{
    put_if(
        at,
        all,
        cond,
        direct,
        Box::into_inner(then_arm),
        Box::into_inner(else_arm),
    )
}

/// Puts an `if` whose condition was taken so: in the piece, or as a unit where it holds a numbered call.
fn put_if(
    at: &mut Walk,
    all: &mut Sequence,
    cond: Operand,
    direct: bool,
    then_arm: Written,
    else_arm: Written,
) -> Result<(), AllocError>
    requires { Good at.old }
    ensures { OnOk result (Decided cond direct at.old all.old at.new all.new then_arm else_arm) }
{
    all.place = else_arm.place;
    let free = are_free(&then_arm, &else_arm);
    let first = then_arm.pieces;
    let second = else_arm.pieces;
    if free {
        return put_free_if(at, cond, direct, first.first, second.first);
    }
    if may_stay(all, direct) {
        let head = Head::If {
            cond: None,
            then_arm: first,
            else_arm: second,
        };
        return open_unit(at, all, head);
    }
    set_condition(at, cond, direct)?;
    let head = Head::If {
        cond: Some(cond),
        then_arm: first,
        else_arm: second,
    };
    open_unit(at, all, head)
}
