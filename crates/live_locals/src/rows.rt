//! The numbered calls of statements, and the locals that they keep.

ghost use Rattle.std.specs.Prelude.{◌≡◌, drop, length, reverse, IfOk, OnOk};
ghost use Rattle.run_theory.specs.Flat.{code_of, no_more};
ghost use Rattle.run_theory.specs.FlatView.{stmt_in_front, stmts};
ghost use Rattle.live_locals.specs.Heads.{loop_total};
ghost use Rattle.live_locals.specs.Nests.{Nest};
ghost use Rattle.live_locals.specs.Rows.{Countable, RowsPut, StandsAt};
ghost use Rattle.live_locals.specs.Sets.{Passed};

use crate::keeping::{Keeping, put_call, settle_all, settle_told, settle_touched};
use crate::nests::{Around, Walk, enter_loop};
use crate::sets::{copied, join, read_operand, write_told};
use crate::steps::{pass_simple, read_taken};
use std::alloc::AllocError;
use wa_model::Stmt;

/// The calls that are still to come: the places of the numbered ones among all calls, and the place behind the last to come.
#[derive(Clone, Copy)]
pub(crate) struct CallsLeft<'a> {
    pub(crate) numbers: &'a [u32],
    pub(crate) last: u32,
}

/// Tells which locals a body's numbered calls keep, the last call first, and passes over it backwards. The place of its first call is
/// answered. The walk has entries for the loops in the body, the next last. Between calls, branches and constructs only the locals that
/// statements touch are looked at.
#[cycle(rows)]
pub(crate) fn put_body_rows(
    walk: &mut Walk,
    keeping: &mut Keeping,
    calls: CallsLeft<'_>,
    around: Around<'_>,
    set: &mut [bool],
    body: &[Stmt],
) -> Result<u32, AllocError>
    requires calls { Countable calls.numbers.now calls.last (stmts body.now) }
    requires nest { Nest around.level around.reach.now walk.old.tos.items set.old (reverse walk.old.heads.items) (stmts body.now) }
    requires there { StandsAt calls.numbers.now calls.last (length set.old) keeping.old }
    ensures passed { OnOk result (Passed walk.old.tos.items walk.new.tos.items set.old set.new (code_of (stmts body.now))) }
    ensures rows { IfOk result (λ first. RowsPut calls.entry.numbers.now walk.old.tos.items set.old set.new (stmts body.now) calls.entry.last first keeping.old keeping.new) }
    ensures heads { OnOk result (reverse walk.new.heads.items ≡ drop (loop_total (stmts body.now)) (reverse walk.old.heads.items)) }
{
    let mut first = calls.last;
    let mut left = body.len();
    while left > 0 {
        left -= 1;
        let before = CallsLeft {
            last: first,
            ..calls
        };
        first = put_stmt_rows(walk, keeping, before, around, set, &body[left])?;
    }
    Ok(first)
}

/// The same of a statement.
#[cycle(rows)]
fn put_stmt_rows(
    walk: &mut Walk,
    keeping: &mut Keeping,
    calls: CallsLeft<'_>,
    around: Around<'_>,
    set: &mut [bool],
    stmt: &Stmt,
) -> Result<u32, AllocError>
    requires calls { Countable calls.numbers.now calls.last (stmt_in_front stmt.now no_more) }
    requires nest { Nest around.level around.reach.now walk.old.tos.items set.old (reverse walk.old.heads.items) (stmt_in_front stmt.now no_more) }
    requires there { StandsAt calls.numbers.now calls.last (length set.old) keeping.old }
    ensures passed { OnOk result (Passed walk.old.tos.items walk.new.tos.items set.old set.new (code_of (stmt_in_front stmt.now no_more))) }
    ensures rows { IfOk result (λ first. RowsPut calls.entry.numbers.now walk.old.tos.items set.old set.new (stmt_in_front stmt.now no_more) calls.entry.last first keeping.old keeping.new) }
    ensures heads { OnOk result (reverse walk.new.heads.items ≡ drop (loop_total (stmt_in_front stmt.now no_more)) (reverse walk.old.heads.items)) }
{
    match stmt {
        Stmt::Call {
            stack,
            args,
            to,
            ..
        } => {
            let place = calls.last - 1;
            settle_told(keeping, set, *to)?;
            write_told(set, *to);
            put_call(keeping, calls.numbers, place, set, stack, *args)?;
            read_taken(set, stack, *args);
            Ok(place)
        }
        Stmt::Block(body) => {
            walk.tos.push(copied(walk.alloc, set)?)?;
            let first = put_body_rows(walk, keeping, calls, around, set, body)?;
            walk.tos.pop();
            Ok(first)
        }
        Stmt::Loop(body) => {
            let mut inner = copied(walk.alloc, set)?;
            let inside = enter_loop(walk, set, around, stmt, body)?;
            let head = copied(walk.alloc, set)?;
            walk.tos.push(head)?;
            let within = Around {
                level: inside.level,
                reach: &inside.reach,
            };
            let first = put_body_rows(walk, keeping, calls, within, &mut inner, body)?;
            walk.tos.pop();
            settle_all(keeping, &inner)?;
            Ok(first)
        }
        Stmt::If {
            cond,
            then_arm,
            else_arm,
        } => {
            let mut other = copied(walk.alloc, set)?;
            walk.tos.push(copied(walk.alloc, set)?)?;
            let middle = put_body_rows(walk, keeping, calls, around, set, else_arm)?;
            settle_all(keeping, set)?;
            let before = CallsLeft {
                last: middle,
                ..calls
            };
            let first = put_body_rows(walk, keeping, before, around, &mut other, then_arm)?;
            walk.tos.pop();
            settle_all(keeping, &other)?;
            join(set, &other);
            read_operand(set, *cond);
            Ok(first)
        }
        _ => {
            settle_touched(keeping, set, stmt)?;
            pass_simple(&walk.tos, set, stmt);
            Ok(calls.last)
        }
    }
}
