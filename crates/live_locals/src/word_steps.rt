//! Statements that hold no others, passed over backwards in all worlds.

ghost use Rattle.std.specs.Prelude.{◌≡◌, length};
ghost use Rattle.wa_types.specs.Syntax.{br, br_if, br_table, done, plain};
ghost use Rattle.wa_types.specs.View.{in_front};
ghost use Rattle.run_theory.specs.Flat.{code_of, got, last_of, no_more, slots_got};
ghost use Rattle.run_theory.specs.FlatView.{stmt_in_front};
ghost use Rattle.live_locals.specs.Ops.{HoldsNone, IsComputation, OpsFit};
ghost use Rattle.live_locals.specs.Words.{WordsBefore, WordsTell};

use crate::word_sets::{
    empty, join_label, join_labels, read, read_operand, read_operands, read_slots, write,
    write_told,
};
use wa_model::{Operand, Stmt};
use wa_types::Instr;

/// The instruction of a computation.
fn pass_op(set: &mut [u64], op: &Instr)
    requires { IsComputation (in_front op.now done) }
    ensures { WordsTell set.old set.new (in_front op.now done) }
{
    match op {
        Instr::LocalGet(local) => read(set, *local),
        Instr::LocalSet(local) => write(set, *local),
        Instr::LocalTee(local) => write(set, *local),
        _ => {}
    }
}

/// The last entries of a stack are read, as many as a call takes.
fn read_taken(set: &mut [u64], stack: &[u32], args: u32)
    ensures { WordsTell set.old set.new (slots_got (last_of args stack.now) done) }
{
    let left = stack.len().saturating_sub(args as usize);
    read_slots(set, &stack[left..]);
}

/// A branch that is always taken.
fn pass_br(outer: &[Vec<bool>], inner: &[Vec<u64>], set: &mut [u64], label: u32)
    ensures { WordsBefore outer.now inner.now set.old set.new (plain (br label) done) }
{
    empty(set);
    join_label(set, outer, inner, label);
}

/// A branch that may be taken.
fn pass_br_if(outer: &[Vec<bool>], inner: &[Vec<u64>], set: &mut [u64], cond: Operand, label: u32)
    ensures { WordsBefore outer.now inner.now set.old set.new (got cond (plain (br_if label) done)) }
{
    join_label(set, outer, inner, label);
    read_operand(set, cond);
}

/// A branch to one of several labels.
fn pass_br_table(
    outer: &[Vec<bool>],
    inner: &[Vec<u64>],
    set: &mut [u64],
    index: Operand,
    labels: &[u32],
    last: u32,
)
    ensures { WordsBefore outer.now inner.now set.old set.new (got index (plain (br_table labels.now last) done)) }
{
    empty(set);
    join_labels(set, outer, inner, labels);
    join_label(set, outer, inner, last);
    read_operand(set, index);
}

/// A statement that holds no others.
pub(crate) fn pass_simple(outer: &[Vec<bool>], inner: &[Vec<u64>], set: &mut [u64], stmt: &Stmt)
    requires ops { OpsFit (stmt_in_front stmt.now no_more) }
    requires simple { HoldsNone (stmt_in_front stmt.now no_more) }
    ensures { WordsBefore outer.now inner.now set.old set.new (code_of (stmt_in_front stmt.now no_more)) }
{
    match stmt {
        Stmt::Plain { op, args, to } => {
            write_told(set, *to);
            pass_op(set, op);
            read_operands(set, args);
        }
        Stmt::Move { to, from } => {
            write(set, *to);
            read_operand(set, *from);
        }
        Stmt::Call {
            stack,
            args,
            to,
            ..
        } => {
            write_told(set, *to);
            read_taken(set, stack, *args);
        }
        Stmt::Br(label) => pass_br(outer, inner, set, *label),
        Stmt::BrIf { cond, label } => pass_br_if(outer, inner, set, *cond, *label),
        Stmt::BrTable {
            index,
            labels,
            last,
        } => pass_br_table(outer, inner, set, *index, labels, *last),
        Stmt::Unreachable => empty(set),
        _ => unreachable!(),
    }
}
