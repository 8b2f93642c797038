//! What is read first from the front of statements on.

ghost use Rattle.std.specs.Prelude.{OnOk};
ghost use Rattle.run_theory.specs.Flat.{code_of, no_more};
ghost use Rattle.run_theory.specs.FlatView.{stmt_in_front, stmts};
ghost use Rattle.live_locals.specs.Ops.{OpsFit};
ghost use Rattle.live_locals.specs.Sets.{Passed};

use crate::sets::{copied, join, read_operand};
use crate::steps::pass_simple;
use std::alloc::{AllocError, Global};
use wa_model::Stmt;

/// A body is passed over backwards: `set` tells what is read first from behind it on, then from its front on, and `tos` the same
/// for the target of each label, that of the innermost last.
#[cycle(pass)]
pub(crate) fn pass_body(
    alloc: Global,
    tos: &mut Vec<Vec<bool>>,
    set: &mut [bool],
    body: &[Stmt],
) -> Result<(), AllocError>
    requires { OpsFit (stmts body.now) }
    ensures { OnOk result (Passed tos.old.items tos.new.items set.old set.new (code_of (stmts body.now))) }
{
    let mut left = body.len();
    while left > 0 {
        left -= 1;
        pass_stmt(alloc, tos, set, &body[left])?;
    }
    Ok(())
}

/// So is a statement.
#[cycle(pass)]
pub fn pass_stmt(
    alloc: Global,
    tos: &mut Vec<Vec<bool>>,
    set: &mut [bool],
    stmt: &Stmt,
) -> Result<(), AllocError>
    requires { OpsFit (stmt_in_front stmt.now no_more) }
    ensures { OnOk result (Passed tos.old.items tos.new.items set.old set.new (code_of (stmt_in_front stmt.now no_more))) }
{
    match stmt {
        Stmt::Block(body) => {
            tos.push(copied(alloc, set)?)?;
            pass_body(alloc, tos, set, body)?;
            tos.pop();
            Ok(())
        }
        Stmt::Loop(body) => {
            tos.push(Vec::new(alloc))?;
            pass_body(alloc, tos, set, body)?;
            tos.pop();
            Ok(())
        }
        Stmt::If {
            cond,
            then_arm,
            else_arm,
        } => {
            let mut other = copied(alloc, set)?;
            tos.push(copied(alloc, set)?)?;
            pass_body(alloc, tos, set, else_arm)?;
            pass_body(alloc, tos, &mut other, then_arm)?;
            tos.pop();
            join(set, &other);
            read_operand(set, *cond);
            Ok(())
        }
        _ => {
            pass_simple(tos, set, stmt);
            Ok(())
        }
    }
}
