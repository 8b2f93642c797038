//! The walk over statements that keeps each operand in its local: plain pieces, of any function.
//!
//! It goes as deep as code nests, as `walk` does, and shares its state, in which no operand stands on the stack.

ghost use Rattle.std.specs.Prelude.{◌≡◌, IfOk, OnOk};
ghost use Rattle.std.specs.Option.{option_map};
ghost use Rattle.wa_types.specs.Syntax.{done};
ghost use Rattle.wa_types.specs.View.{in_front};
ghost use Rattle.run_theory.specs.Flat.{calls, no_more};
ghost use Rattle.run_theory.specs.FlatView.{stmt_in_front, stmts};
ghost use Rattle.guard_form.specs.Pieces.{numbered};
ghost use Rattle.flow_rewrite.specs.Emitting.{Rises};
ghost use Rattle.flow_rewrite.specs.Putting.{Puts};
ghost use Rattle.flow_rewrite.specs.Statements.{one_code};
ghost use Rattle.flow_rewrite.specs.UnitView.{callee_of};
ghost use Rattle.slim_rewrite.specs.Coming.{Ready};
ghost use Rattle.slim_rewrite.specs.Gathering.{Bare, Gathered, IsGathered, IsSimple};

use crate::calls::{FlatCall, is_numbered, target_of};
use crate::constructs::{enter, leave, put_block_apart, put_if_apart, put_loop_apart};
use crate::sequence::{Head, Sequence, Written, begin, finish_apart, open_unit};
use crate::stack::Walk;
use flow_rewrite::{Target, put_copy, put_operand, put_operands, put_slots, put_to};
use std::alloc::{AllocError, Global};
use wa_model::Stmt;
use wa_types::Instr;

/// Puts a statement that is one instruction, and neither a call nor a construct.
#[inline(never)]
fn put_simple(alloc: Global, piece: &mut Vec<Instr>, stmt: &Stmt) -> Result<(), AllocError>
    requires { IsSimple (stmt_in_front stmt.now no_more) }
    ensures { OnOk result (Puts piece.old.items piece.new.items (one_code (stmt_in_front stmt.now no_more))) }
{
    match stmt {
        Stmt::Plain { op, args, to } => {
            put_operands(piece, args)?;
            put_copy(alloc, piece, op)?;
            put_to(piece, *to)?;
            Ok(())
        }
        Stmt::Move { to, from } => {
            put_operand(piece, *from)?;
            piece.push(Instr::LocalSet(*to))?;
            Ok(())
        }
        Stmt::Br(label) => {
            piece.push(Instr::Br(*label))?;
            Ok(())
        }
        Stmt::BrIf { cond, label } => {
            put_operand(piece, *cond)?;
            piece.push(Instr::BrIf(*label))?;
            Ok(())
        }
        Stmt::BrTable {
            index,
            labels,
            last,
        } => {
            put_operand(piece, *index)?;
            let labels = Vec::from_slice(alloc, labels)?;
            piece.push(Instr::BrTable {
                labels,
                last: *last,
            })?;
            Ok(())
        }
        Stmt::Unreachable => {
            piece.push(Instr::Unreachable)?;
            Ok(())
        }
        _ => unreachable!(),
    }
}

/// What a call at this place goes to, where it is numbered.
fn numbered_target(numbers: &[u32], place: u32, op: &Instr) -> Option<Target>
    requires { Rises numbers.now }
    ensures { option_map callee_of result ≡ numbered numbers.now place (in_front op.now done) }
{
    if !is_numbered(numbers, place) {
        return None;
    }
    target_of(op)
}

/// Puts a call: in the piece, or as a unit where it is numbered.
#[inline(never)]
fn gather_call(
    numbers: &[u32],
    at: &mut Walk,
    all: &mut Sequence,
    call: FlatCall<'_>,
) -> Result<(), AllocError>
    requires rises { Rises numbers.now }
    requires bare { Bare at.old }
    requires ready { Ready all.old.place (calls (in_front call.op.now done) call.stack.now call.args call.to no_more) }
    ensures { OnOk result (Gathered numbers.now at.old all.old at.new all.new (calls (in_front call.entry.op.now done) call.entry.stack.now call.entry.args call.entry.to)) }
{
    let kept = call.stack.len() - call.args as usize;
    let place = all.place;
    all.place += 1;
    match numbered_target(numbers, place, call.op) {
        Some(target) => {
            let slots = Vec::from_slice(at.alloc, &call.stack[kept..])?;
            let head = Head::Call {
                slots,
                target,
                to: call.to,
            };
            open_unit(at, all, head)
        }
        None => {
            put_slots(&mut at.piece, &call.stack[kept..])?;
            put_copy(at.alloc, &mut at.piece, call.op)?;
            put_to(&mut at.piece, call.to)
        }
    }
}

/// The statements of a body or of an arm in plain pieces and units.
#[cycle(gather)]
pub(crate) fn gather_sequence(
    numbers: &[u32],
    at: &mut Walk,
    body: &[Stmt],
    place: u32,
) -> Result<Box<Written>, AllocError>
    requires rises { Rises numbers.now }
    requires bare { Bare at.old }
    requires ready { Ready place (stmts body.now) }
    ensures { IfOk result (λ w. IsGathered numbers.now at.old place (stmts body.now) at.new w.value) }
{
    let outside = enter(at);
    let mut all = begin(at.alloc, place)?;
    for stmt in body {
        gather_stmt(numbers, at, &mut all, stmt)?;
    }
    let written = finish_apart(at, all)?;
    leave(at, outside, false);
    Ok(written)
}

/// Puts a statement.
#[cycle(gather)]
fn gather_stmt(
    numbers: &[u32],
    at: &mut Walk,
    all: &mut Sequence,
    stmt: &Stmt,
) -> Result<(), AllocError>
    requires rises { Rises numbers.now }
    requires bare { Bare at.old }
    requires ready { Ready all.old.place (stmt_in_front stmt.now no_more) }
    ensures { OnOk result (Gathered numbers.now at.old all.old at.new all.new (stmt_in_front stmt.now)) }
{
    match stmt {
        Stmt::Call {
            op,
            stack,
            args,
            to,
        } => {
            let call = FlatCall {
                op,
                stack,
                args: *args,
                to: *to,
            };
            gather_call(numbers, at, all, call)
        }
        Stmt::Block(body) => {
            let inner = gather_sequence(numbers, at, body, all.place)?;
            put_block_apart(at, all, inner)
        }
        Stmt::Loop(body) => {
            let inner = gather_sequence(numbers, at, body, all.place)?;
            put_loop_apart(at, all, inner)
        }
        Stmt::If {
            cond,
            then_arm,
            else_arm,
        } => {
            let first = gather_sequence(numbers, at, then_arm, all.place)?;
            let middle = first.place;
            let second = gather_sequence(numbers, at, else_arm, middle)?;
            put_if_apart(at, all, *cond, false, first, second)
        }
        _ => put_simple(at.alloc, &mut at.piece, stmt),
    }
}
