//! Statements that are neither calls nor constructs.

ghost use Rattle.std.specs.Prelude.{◌≡◌, ℕ, List, true, false, IfOk};
ghost use Rattle.run_theory.specs.Flat.{no_more};
ghost use Rattle.run_theory.specs.FlatView.{stmt_in_front};
ghost use Rattle.slim_rewrite.specs.Walking.{Good};
ghost use Rattle.slim_rewrite.specs.Coming.{Ready};
ghost use Rattle.slim_rewrite.specs.Steps.{Put};

use crate::branches::{put_br, put_br_if, put_br_table, put_unreachable};
use crate::moves::{put_move, put_plain};
use crate::sequence::Sequence;
use crate::stack::Walk;
use std::alloc::AllocError;
use wa_model::Stmt;

/// Puts a statement that is neither a call nor a construct. False where its operands aren't the topmost ones.
#[inline(never)]
pub fn put_single(
    at: &mut Walk,
    all: &mut Sequence,
    stmt: &Stmt,
    again: bool,
) -> Result<bool, AllocError>
    requires good { Good at.old }
    requires goes { all.old.ended ≡ false }
    requires ready { Ready all.old.place (stmt_in_front stmt.now no_more) }
    ensures { IfOk result (λ put. put ≡ true → (ps : List ℕ) → Put ps at.old all.old at.new all.new (stmt_in_front stmt.now)) }
{
    match stmt {
        Stmt::Plain { op, args, to } => put_plain(at, op, args, *to),
        Stmt::Move { to, from } => put_move(at, *to, *from, again),
        Stmt::BrIf { cond, label } => put_br_if(at, *cond, *label),
        Stmt::Br(label) => {
            put_br(at, *label)?;
            all.ended = true;
            Ok(true)
        }
        Stmt::BrTable {
            index,
            labels,
            last,
        } => {
            all.ended = true;
            put_br_table(at, *index, labels, *last)
        }
        Stmt::Unreachable => {
            put_unreachable(at)?;
            all.ended = true;
            Ok(true)
        }
        _ => Ok(false),
    }
}
