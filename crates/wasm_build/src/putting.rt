//! Instructions that hold no other, put behind those of a body (standard, section 5.4).

ghost use Rattle.std.specs.Prelude.{◌<◌, ◌≤◌, length};
ghost use Rattle.wasm_build.specs.BuildsPlain.{Puts, PutsNumber};

use crate::build_types::BuildFault;
use crate::plain::plain;
use std::alloc::Global;
use wa_types::{Instr, NumOp};
use wasm_grammar::Cursor;

/// Puts the instruction of this opcode, which holds no other, behind the body.
// Each kind that is common has a call of its own, so that the compiler keeps a copy of `put_one` for it that reads and writes this kind alone.
#[inline(always)]
pub fn put(
    alloc: Global,
    input: &mut Cursor<'_>,
    body: &mut Vec<Instr>,
    op: u8,
) -> Result<bool, BuildFault>
    ensures puts { Puts op result body.old.items body.new.items input.old input.new }
    ensures left { length input.new.left ≤ length input.old.left }
{
    if op >= 0x45 {
        put_numeric(alloc, input, body, op)
    } else if op >= 0x20 {
        put_accessing(alloc, input, body, op)
    } else {
        put_control(alloc, input, body, op)
    }
}

// The same for control and parametric instructions, which have the opcodes below 20.
#[inline(always)]
fn put_control(
    alloc: Global,
    input: &mut Cursor<'_>,
    body: &mut Vec<Instr>,
    op: u8,
) -> Result<bool, BuildFault>
    ensures puts { Puts op result body.old.items body.new.items input.old input.new }
    ensures left { length input.new.left ≤ length input.old.left }
{
    match op {
        0x0C..=0x0D => put_one(alloc, input, body, op),
        0x10 => put_one(alloc, input, body, op),
        0x1A..=0x1B => put_one(alloc, input, body, op),
        _ => put_one(alloc, input, body, op),
    }
}

// The same for variables, accesses of the memory and constants, which have the opcodes from 20 to 44.
#[inline(always)]
fn put_accessing(
    alloc: Global,
    input: &mut Cursor<'_>,
    body: &mut Vec<Instr>,
    op: u8,
) -> Result<bool, BuildFault>
    ensures puts { Puts op result body.old.items body.new.items input.old input.new }
    ensures left { length input.new.left ≤ length input.old.left }
{
    match op {
        0x20..=0x24 => put_one(alloc, input, body, op),
        0x28..=0x3E => put_one(alloc, input, body, op),
        0x41 => put_one(alloc, input, body, op),
        _ => put_one(alloc, input, body, op),
    }
}

// The same for the numeric instructions, which have the opcodes from 45 on.
#[inline(always)]
fn put_numeric(
    alloc: Global,
    input: &mut Cursor<'_>,
    body: &mut Vec<Instr>,
    op: u8,
) -> Result<bool, BuildFault>
    ensures puts { Puts op result body.old.items body.new.items input.old input.new }
    ensures left { length input.new.left ≤ length input.old.left }
{
    match NumOp::of_opcode(op) {
        Some(n) => put_number(body, n),
        None => put_one(alloc, input, body, op),
    }
}

// Puts the instruction of this opcode behind the body.
#[inline(always)]
fn put_one(
    alloc: Global,
    input: &mut Cursor<'_>,
    body: &mut Vec<Instr>,
    op: u8,
) -> Result<bool, BuildFault>
    ensures puts { Puts op result body.old.items body.new.items input.old input.new }
    ensures left { length input.new.left ≤ length input.old.left }
{
    let instr = plain(alloc, input, op)?;
    body.push(instr)?;
    Ok(false)
}

// Puts the numeric instruction of this operator behind the body.
#[inline(always)]
fn put_number(body: &mut Vec<Instr>, n: NumOp) -> Result<bool, BuildFault>
    ensures { PutsNumber n result body.old.items body.new.items }
{
    body.push(Instr::Num(n))?;
    Ok(false)
}
