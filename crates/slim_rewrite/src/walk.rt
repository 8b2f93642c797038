//! The walk over statements.
//!
//! It goes as deep as code nests, so little of it stands on the stack: sequences and what is written are kept apart, and what has no call
//! of the walk in it is a function of its own.

ghost use Rattle.std.specs.Prelude.{◌≡◌, ◌<◌, ◌^◌, [], length, true, false, IfOk};
ghost use Rattle.wa_types.specs.Syntax.{a_block, a_loop};
ghost use Rattle.wa_model.specs.declared.flat.Operand.TheVariants.{Local};
ghost use Rattle.run_theory.specs.Flat.{decides, nests, no_more};
ghost use Rattle.run_theory.specs.FlatView.{stmt_in_front, stmts};
ghost use Rattle.flow_rewrite.specs.Emitting.{Rises};
ghost use Rattle.slim_rewrite.specs.Walking.{Good};
ghost use Rattle.slim_rewrite.specs.Coming.{Ready};
ghost use Rattle.slim_rewrite.specs.Inside.{InsideTold, unboxed, WrittenTold};
ghost use Rattle.slim_rewrite.specs.Steps.{Put};

use crate::calls::{FlatCall, put_call};
use crate::constructs::{
    claim, enter, leave, put_block_apart, put_if_apart, put_loop_apart, stays, take_condition,
    unreached,
};
use crate::guesses::{following, reads_again, taken_behind};
use crate::sequence::{Sequence, Written, begin, finish_apart, give_up, goes_on};
use crate::single::put_single;
use crate::stack::{Walk, flush};
use std::alloc::AllocError;
use wa_model::{Operand, Stmt};

/// The statements of a body or of an arm in pieces and units, and the one that is run behind them, where that is known. Nothing where they don't use slots as a stack.
#[cycle(write)]
pub(crate) fn write_sequence(
    numbers: &[u32],
    at: &mut Walk,
    body: &[Stmt],
    place: u32,
    after: Option<&Stmt>,
) -> Result<Option<Box<Written>>, AllocError>
    requires rises { Rises numbers.now }
    requires good { Good at.old }
    requires piece { at.old.piece.items ≡ [] }
    requires ready { Ready place (stmts body.now) }
    ensures { IfOk result (λ o. WrittenTold numbers.now at.old place (stmts body.now) at.new (unboxed o)) }
{
    let mut all = begin(at.alloc, place)?;
    let mut next = 0;
    for stmt in body {
        next += 1;
        let coming = following(body, next, after);
        let put = write_stmt(numbers, at, &mut all, stmt, coming);
        if !goes_on(&put) {
            return give_up(all, put);
        }
    }
    let written = finish_apart(at, all)?;
    Ok(Some(written))
}

/// The body of a construct, in front of which all slots are set. Those that its end leaves stay behind it where so told; where
/// that isn't reached, a slot that is told counts as set.
#[cycle(write)]
#[inline(always)]
fn write_inside(
    numbers: &[u32],
    at: &mut Walk,
    body: &[Stmt],
    place: u32,
    kept: bool,
    after: Option<&Stmt>,
) -> Result<Option<Box<Written>>, AllocError>
    requires rises { Rises numbers.now }
    requires good { Good at.old }
    requires bare { at.old.set ≡ length at.old.stack.items }
    requires ready { Ready place (stmts body.now) }
    ensures { IfOk result (λ o. InsideTold numbers.now at.old place (stmts body.now) kept at.new (unboxed o)) }
{
    let outside = enter(at);
    let Some(written) = write_sequence(numbers, at, body, place, after)? else {
        return Ok(None);
    };
    let left = stays(kept, &written);
    leave(at, outside, left);
    let Some(slot) = unreached(
        kept,
        &written,
        taken_behind(&at.stack, at.low, &at.places, after),
    ) else {
        return Ok(Some(written));
    };
    if !claim(at, slot)? {
        return Ok(None);
    }
    Ok(Some(written))
}

/// Puts a statement, in front of the next one. False where it can't be put, behind a jump too.
#[cycle(write)]
fn write_stmt(
    numbers: &[u32],
    at: &mut Walk,
    all: &mut Sequence,
    stmt: &Stmt,
    next: Option<&Stmt>,
) -> Result<bool, AllocError>
    requires rises { Rises numbers.now }
    requires good { Good at.old }
    requires ready { Ready all.old.place (stmt_in_front stmt.now no_more) }
    ensures { IfOk result (λ put. put ≡ true → Put numbers.now at.old all.old at.new all.new (stmt_in_front stmt.now)) }
{
    if all.ended {
        return Ok(false);
    }
    match stmt {
        Stmt::Call {
            op,
            stack,
            args,
            to,
        } => {
            let call = FlatCall {
                op,
                stack,
                args: *args,
                to: *to,
            };
            put_call(numbers, at, all, call)
        }
        Stmt::Block(body) => write_block(numbers, at, all, body),
        Stmt::Loop(body) => write_loop(numbers, at, all, body, next),
        Stmt::If {
            cond,
            then_arm,
            else_arm,
        } => {
            let Operand::Local(x) = *cond else {
                return Ok(false);
            };
            write_if(numbers, at, all, x, then_arm, else_arm)
        }
        _ => {
            let again = reads_again(&at.stack, at.low, &at.apart, stmt, next);
            put_single(at, all, stmt, again)
        }
    }
}

/// Puts a block.
#[cycle(write)]
#[inline(never)]
fn write_block(
    numbers: &[u32],
    at: &mut Walk,
    all: &mut Sequence,
    body: &[Stmt],
) -> Result<bool, AllocError>
    requires rises { Rises numbers.now }
    requires good { Good at.old }
    requires goes { all.old.ended ≡ false }
    requires ready { Ready all.old.place (nests a_block (stmts body.now) no_more) }
    ensures { IfOk result (λ put. put ≡ true → Put numbers.now at.old all.old at.new all.new (nests a_block (stmts body.now))) }
{
    flush(at)?;
    let Some(inner) = write_inside(numbers, at, body, all.place, false, None)? else {
        return Ok(false);
    };
    put_block_apart(at, all, inner)?;
    Ok(true)
}

/// Puts a loop, in front of the next statement.
#[cycle(write)]
#[inline(never)]
fn write_loop(
    numbers: &[u32],
    at: &mut Walk,
    all: &mut Sequence,
    body: &[Stmt],
    next: Option<&Stmt>,
) -> Result<bool, AllocError>
    requires rises { Rises numbers.now }
    requires good { Good at.old }
    requires goes { all.old.ended ≡ false }
    requires ready { Ready all.old.place (nests a_loop (stmts body.now) no_more) }
    ensures { IfOk result (λ put. put ≡ true → Put numbers.now at.old all.old at.new all.new (nests a_loop (stmts body.now))) }
{
    flush(at)?;
    let Some(inner) = write_inside(numbers, at, body, all.place, true, next)? else {
        return Ok(false);
    };
    put_loop_apart(at, all, inner)?;
    Ok(true)
}

/// Puts an `if`.
#[cycle(write)]
#[inline(never)]
fn write_if(
    numbers: &[u32],
    at: &mut Walk,
    all: &mut Sequence,
    x: u32,
    then_arm: &[Stmt],
    else_arm: &[Stmt],
) -> Result<bool, AllocError>
    requires rises { Rises numbers.now }
    requires good { Good at.old }
    requires goes { all.old.ended ≡ false }
    requires ready { Ready all.old.place (decides (Local x) (stmts then_arm.now) (stmts else_arm.now) no_more) }
    ensures { IfOk result (λ put. put ≡ true → Put numbers.now at.old all.old at.new all.new (decides (Local x) (stmts then_arm.now) (stmts else_arm.now))) }
{
    let Some(direct) = take_condition(at, x)? else {
        return Ok(false);
    };
    let Some(first) = write_inside(numbers, at, then_arm, all.place, false, None)? else {
        return Ok(false);
    };
    let middle = first.place;
    let Some(second) = write_inside(numbers, at, else_arm, middle, false, None)? else {
        return Ok(false);
    };
    put_if_apart(at, all, Operand::Local(x), direct, first, second)?;
    Ok(true)
}
