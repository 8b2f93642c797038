//! Instructions that hold no other, by their opcodes (standard, section 5.4).

ghost use Rattle.std.specs.Prelude.{◌≡◌, ℕ, ◌≤◌, length, Some};
ghost use Rattle.wa_types.specs.Binary.{nothing, zero_byte, index, access};
ghost use Rattle.wa_types.specs.Opcodes.{follows, a_bulk};
ghost use Rattle.wasm_build.specs.Builds.{Builds};
ghost use Rattle.wasm_build.specs.BuildsPlain.{SpelledPlain, code_of_one, NamesPlain, FoundIn};

use crate::build_types::BuildFault;
use crate::entry::vector;
use crate::types::{IndexEntry, tag};
use std::alloc::Global;
use wa_types::{Instr, NumOp, Value};
use wasm_grammar::{Cursor, ImmediateForm, immediate_form};

// The instruction of an opcode that nothing follows.
#[inline(always)]
fn simple(op: u8) -> Option<Instr>
    ensures { NamesPlain op nothing result }
{
    match op {
        0x00 => Some(Instr::Unreachable),
        0x01 => Some(Instr::Nop),
        0x0F => Some(Instr::Return),
        0x1A => Some(Instr::Drop),
        0x1B => Some(Instr::Select),
        _ => Some(Instr::Num(NumOp::of_opcode(op)?)),
    }
}

// The instruction of an opcode that a zero byte follows (standard, section 5.4.4).
#[inline(always)]
fn of_memory(op: u8) -> Instr
    ensures { NamesPlain op zero_byte (Some result) }
{
    if op == 0x3F {
        Instr::MemorySize
    } else {
        Instr::MemoryGrow
    }
}

// The instruction of an opcode that this index follows.
#[inline(always)]
fn indexed(op: u8, x: u32) -> Option<Instr>
    ensures { NamesPlain op (index x) result }
{
    match op {
        0x0C => Some(Instr::Br(x)),
        0x0D => Some(Instr::BrIf(x)),
        0x10 => Some(Instr::Call(x)),
        0x20 => Some(Instr::LocalGet(x)),
        0x21 => Some(Instr::LocalSet(x)),
        0x22 => Some(Instr::LocalTee(x)),
        0x23 => Some(Instr::GlobalGet(x)),
        0x24 => Some(Instr::GlobalSet(x)),
        _ => None,
    }
}

// The load or store of this opcode; those of floats are left out (standard, section 5.4.4).
#[inline(always)]
fn accessed(op: u8, align: u32, offset: u32) -> Option<Instr>
    ensures { NamesPlain op (access align offset) result }
{
    match op {
        0x28..=0x29 => Some(Instr::Load { op, align, offset }),
        0x2C..=0x35 => Some(Instr::Load { op, align, offset }),
        0x36..=0x37 => Some(Instr::Store { op, align, offset }),
        0x3A..=0x3E => Some(Instr::Store { op, align, offset }),
        _ => None,
    }
}

/// An instruction that holds no other, behind its opcode (standard, section 5.4).
#[inline(always)]
pub(crate) fn plain(alloc: Global, input: &mut Cursor<'_>, op: u8) -> Result<Instr, BuildFault>
    ensures built { Builds code_of_one (SpelledPlain op) result input.old input.new }
    ensures left { length input.new.left ≤ length input.old.left }
{
    match immediate_form(op) {
        Some(ImmediateForm::Nothing) => found(simple(op)),
        Some(ImmediateForm::ZeroByte) => {
            tag(input, 0x00)?;
            Ok(of_memory(op))
        }
        Some(ImmediateForm::Index) => {
            let x = input.number()?;
            found(indexed(op, x))
        }
        Some(ImmediateForm::IndexAndZero) => {
            let x = input.number()?;
            tag(input, 0x00)?;
            Ok(Instr::CallIndirect(x))
        }
        Some(ImmediateForm::Access) => {
            let align = input.number()?;
            let offset = input.number()?;
            found(accessed(op, align, offset))
        }
        Some(ImmediateForm::Labels) => {
            let labels = vector::<IndexEntry>(alloc, input)?;
            let last = input.number()?;
            Ok(Instr::BrTable { labels, last })
        }
        Some(ImmediateForm::Constant32) => Ok(Instr::Const(Value::I32(input.signed_32()?))),
        Some(ImmediateForm::Constant64) => Ok(Instr::Const(Value::I64(input.signed_64()?))),
        Some(ImmediateForm::Float4) => Err(BuildFault::NotSpelled),
        Some(ImmediateForm::Float8) => Err(BuildFault::NotSpelled),
        Some(ImmediateForm::Bulk) => bulk(input),
        None => Err(BuildFault::NotSpelled),
    }
}

// A copy or a fill of memory behind its prefix: its number, and its zero bytes.
fn bulk(input: &mut Cursor<'_>) -> Result<Instr, BuildFault>
    ensures built { (op : ℕ) → follows op ≡ Some a_bulk → Builds code_of_one (SpelledPlain op) result input.old input.new }
    ensures left { length input.new.left ≤ length input.old.left }
{
    let number = input.number()?;
    match number {
        10 => {
            tag(input, 0x00)?;
            tag(input, 0x00)?;
            Ok(Instr::MemoryCopy)
        }
        11 => {
            tag(input, 0x00)?;
            Ok(Instr::MemoryFill)
        }
        _ => Err(BuildFault::NotSpelled),
    }
}

// That instruction, where there is one.
#[inline(always)]
fn found(instr: Option<Instr>) -> Result<Instr, BuildFault>
    ensures { FoundIn instr result }
{
    instr.ok_or(BuildFault::NotSpelled)
}
