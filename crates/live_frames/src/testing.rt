//! Tests of the call index, and code under them.

ghost use Rattle.std.specs.Prelude.{None, OnOk};
ghost use Rattle.wa_types.specs.Syntax.{basic, branch, const, done, local_get, num, plain};
ghost use Rattle.wa_types.specs.declared.operators.NumOp.TheVariants.{I32Sub};
ghost use Rattle.wa_types.specs.declared.values.Value.TheVariants.{I32 as value_32};
ghost use Rattle.wa_types.specs.View.{code};
ghost use Rattle.call_frames.specs.CallTests.{at_call, at_most, at_row};
ghost use Rattle.call_frames.specs.PlainFrames.{at_calls, at_rows};
ghost use Rattle.local_spill.specs.Putting.{Puts};
ghost use Rattle.call_frames.specs.CallRows.{row_view, row_views};

use crate::words::{by_words, put_words};
use call_frames::{Calls, Row};
use local_spill::put_all;
use std::alloc::{AllocError, Global};
use wa_types::{Instr, NumOp, Value};

/// Puts the comparison of the index with a call.
fn put_call_test(out: &mut Vec<Instr>, index: u32, call: u32) -> Result<(), AllocError>
    ensures { OnOk result (Puts out.old.items out.new.items (at_call index call)) }
{
    put_all(
        out,
        [
            Instr::LocalGet(index),
            Instr::Const(Value::I32(call)),
            Instr::Num(NumOp::I32Eq),
        ],
    )
}

/// Puts the test that a number is at most this one.
fn put_at_most(out: &mut Vec<Instr>, number: u32) -> Result<(), AllocError>
    ensures { OnOk result (Puts out.old.items out.new.items (at_most number)) }
{
    out.push(Instr::Const(Value::I32(number)))?;
    out.push(Instr::Num(NumOp::I32LeU))?;
    Ok(())
}

/// Puts what takes a number from the index.
fn put_difference(out: &mut Vec<Instr>, index: u32, number: u32) -> Result<(), AllocError>
    ensures { OnOk result (Puts out.old.items out.new.items (λ c. plain (local_get index) (plain (basic (const (value_32 number))) (plain (basic (num I32Sub)) c)))) }
{
    put_all(
        out,
        [
            Instr::LocalGet(index),
            Instr::Const(Value::I32(number)),
            Instr::Num(NumOp::I32Sub),
        ],
    )
}

/// Puts the test of a row.
fn put_row(out: &mut Vec<Instr>, index: u32, row: Row) -> Result<(), AllocError>
    ensures { OnOk result (Puts out.old.items out.new.items (at_row index (row_view row))) }
{
    if row.more == 0 {
        return put_call_test(out, index, row.first);
    }
    if row.first == 0 {
        out.push(Instr::LocalGet(index))?;
        return put_at_most(out, row.more);
    }
    put_difference(out, index, row.first)?;
    put_at_most(out, row.more)
}

/// Puts the test that is 1 at the calls of these rows and 0 at all others, row by row.
fn put_rows(out: &mut Vec<Instr>, index: u32, rows: &[Row]) -> Result<(), AllocError>
    ensures { OnOk result (Puts out.old.items out.new.items (at_rows index (row_views rows.now))) }
{
    if rows.is_empty() {
        out.push(Instr::Const(Value::I32(0)))?;
        return Ok(());
    }
    put_row(out, index, rows[0])?;
    let mut at = 1;
    while at < rows.len() {
        put_row(out, index, rows[at])?;
        out.push(Instr::Num(NumOp::I32Or))?;
        at += 1;
    }
    Ok(())
}

/// Puts the test of the index that is 1 at these calls and 0 at all others.
pub fn put_test(
    alloc: Global,
    out: &mut Vec<Instr>,
    index: u32,
    calls: &Calls,
) -> Result<(), AllocError>
    ensures { OnOk result (Puts out.old.items out.new.items (at_calls index calls.now)) }
{
    if by_words(calls) {
        return put_words(alloc, out, index, calls);
    }
    put_rows(out, index, calls.rows())
}

/// Puts code that runs at these calls alone.
pub fn put_under_test(
    alloc: Global,
    out: &mut Vec<Instr>,
    index: u32,
    calls: &Calls,
    arm: Vec<Instr>,
) -> Result<(), AllocError>
    ensures { OnOk result (Puts out.old.items out.new.items (λ c. at_calls index calls.now (branch None (code arm.items) done c))) }
{
    put_test(alloc, out, index, calls)?;
    out.push(Instr::If {
        result: None,
        then_arm: arm,
        else_arm: Vec::new(alloc),
    })?;
    Ok(())
}
