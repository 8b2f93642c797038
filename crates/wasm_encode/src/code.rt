//! Instructions and expressions as bytes (standard, section 5.4).

ghost use Rattle.std.specs.Prelude.{◌≡◌, ◌<◌, ◌≤◌, ◌^◌, ◌++◌, [], ◌∷◌, length, MatchOption, OnOk, ⊤};
ghost use Rattle.wa_types.specs.Encoding.{code_bytes, expression_bytes};
ghost use Rattle.wa_types.specs.View.{code};
ghost use Rattle.wasm_encode.specs.Instrs.{instr_bytes, immediate_bytes, IsSimple};

use crate::entry::{put_vector, vector_len};
use crate::numbers::{put_signed, put_unsigned, signed_len, unsigned_len};
use crate::types::{IndexEntry, result_byte};
use bytes::BytesMut;
use std::alloc::AllocError;
use wa_types::{Instr, Value};

const END: u8 = 0x0B;

const ELSE: u8 = 0x05;

/// What follows an opcode.
#[derive(Clone, Copy)]
pub enum Immediates {
    Nothing,
    /// The zero byte of `memory.size` and `memory.grow`.
    Zero,
    Index(u32),
    /// A type's index and the zero byte of `call_indirect`.
    IndexAndZero(u32),
    Memory { align: u32, offset: u32 },
    Signed32(u32),
    Signed64(u64),
    /// The number of `memory.copy` and its zero bytes.
    Copy,
    /// The number of `memory.fill` and its zero byte.
    Fill,
}

/// The opcode of an instruction and what follows it (standard, section 5.4), but for `br_table` and those
/// that hold others.
#[tactic(auto, unfolding(crate::specs::Instrs::instr_bytes, crate::specs::Instrs::first_bytes, wa_types::specs::View::in_front))]
fn opcode_and_immediates(instr: &Instr) -> (u8, Immediates)
    requires { IsSimple instr.now }
    ensures { instr_bytes instr.now ≡ result.0 ∷ immediate_bytes result.1 }
{
    match instr {
        Instr::Unreachable => (0x00, Immediates::Nothing),
        Instr::Nop => (0x01, Immediates::Nothing),
        Instr::Br(label) => (0x0C, Immediates::Index(*label)),
        Instr::BrIf(label) => (0x0D, Immediates::Index(*label)),
        Instr::Return => (0x0F, Immediates::Nothing),
        Instr::Call(func) => (0x10, Immediates::Index(*func)),
        Instr::CallIndirect(sort) => (0x11, Immediates::IndexAndZero(*sort)),
        Instr::Drop => (0x1A, Immediates::Nothing),
        Instr::Select => (0x1B, Immediates::Nothing),
        Instr::LocalGet(local) => (0x20, Immediates::Index(*local)),
        Instr::LocalSet(local) => (0x21, Immediates::Index(*local)),
        Instr::LocalTee(local) => (0x22, Immediates::Index(*local)),
        Instr::GlobalGet(global) => (0x23, Immediates::Index(*global)),
        Instr::GlobalSet(global) => (0x24, Immediates::Index(*global)),
        Instr::Load { op, align, offset } | Instr::Store { op, align, offset } => (
            *op,
            Immediates::Memory {
                align: *align,
                offset: *offset,
            },
        ),
        Instr::MemorySize => (0x3F, Immediates::Zero),
        Instr::MemoryGrow => (0x40, Immediates::Zero),
        Instr::MemoryCopy => (0xFC, Immediates::Copy),
        Instr::MemoryFill => (0xFC, Immediates::Fill),
        Instr::Const(Value::I32(n)) => (0x41, Immediates::Signed32(*n)),
        Instr::Const(Value::I64(n)) => (0x42, Immediates::Signed64(*n)),
        Instr::Num(op) => (op.opcode(), Immediates::Nothing),
        Instr::BrTable { .. } | Instr::Block { .. } | Instr::Loop { .. } | Instr::If { .. } => {
            unreachable!()
        }
    }
}

/// How many bytes stand behind an opcode.
fn immediates_len(immediates: Immediates) -> u64
    ensures exact { result ≡ length (immediate_bytes immediates) }
    ensures few { result ≤ 20 }
{
    match immediates {
        Immediates::Nothing => 0,
        Immediates::Zero => 1,
        Immediates::Index(index) => unsigned_len(index as u64),
        Immediates::IndexAndZero(index) => unsigned_len(index as u64) + 1,
        Immediates::Memory { align, offset } => {
            unsigned_len(align as u64) + unsigned_len(offset as u64)
        }
        Immediates::Signed32(n) => signed_len(n as u64, 32),
        Immediates::Signed64(n) => signed_len(n, 64),
        Immediates::Copy => 3,
        Immediates::Fill => 2,
    }
}

/// Appends what stands behind an opcode.
fn put_immediates(out: &mut BytesMut, immediates: Immediates) -> Result<(), AllocError>
    ensures { OnOk result (out.new.items ≡ out.old.items ++ immediate_bytes immediates) }
{
    match immediates {
        Immediates::Nothing => Ok(()),
        Immediates::Zero => out.extend_from_slice(&[0x00]),
        Immediates::Index(index) => put_unsigned(out, index as u64),
        Immediates::IndexAndZero(index) => {
            put_unsigned(out, index as u64)?;
            out.extend_from_slice(&[0x00])
        }
        Immediates::Memory { align, offset } => {
            put_unsigned(out, align as u64)?;
            put_unsigned(out, offset as u64)
        }
        Immediates::Signed32(n) => put_signed(out, n as u64, 32),
        Immediates::Signed64(n) => put_signed(out, n, 64),
        Immediates::Copy => out.extend_from_slice(&[0x0A, 0x00, 0x00]),
        Immediates::Fill => out.extend_from_slice(&[0x0B, 0x00]),
    }
}

/// The byte that stands behind an opcode, where it is small enough to be one for sure.
#[tactic(auto, using(crate::proofs::SingleBytes::one_byte))]
fn single_byte(immediates: Immediates) -> Option<u8>
    ensures { MatchOption result ⊤ (λ byte. immediate_bytes immediates ≡ byte ∷ []) }
{
    match immediates {
        Immediates::Index(index) => { if index < 128 { Some(index as u8) } else { None } }
        Immediates::Signed32(n) => { if n < 64 { Some(n as u8) } else { None } }
        _ => None,
    }
}

/// Appends an opcode and what stands behind it, at once where that is a byte.
fn put_simple(out: &mut BytesMut, opcode: u8, immediates: Immediates) -> Result<(), AllocError>
    ensures { OnOk result (out.new.items ≡ out.old.items ++ opcode ∷ immediate_bytes immediates) }
{
    if let Some(byte) = single_byte(immediates) {
        return out.extend_from_slice(&[opcode, byte]);
    }
    out.extend_from_slice(&[opcode])?;
    put_immediates(out, immediates)
}

/// How many bytes a sequence of instructions takes, without its end (standard, section 5.4).
#[cycle(code_len)]
#[tactic(auto, using(crate::proofs::Codes::measuring))]
pub fn code_len(body: &[Instr]) -> u64
    requires { length (code_bytes (code body.now)) < 2 ^ 64 }
    ensures { result ≡ length (code_bytes (code body.now)) }
{
    let mut len = 0;
    for instr in body {
        len += instr_len(instr);
    }
    len
}

#[cycle(code_len)]
#[tactic(auto, using(crate::proofs::Codes::measuring_one))]
fn instr_len(instr: &Instr) -> u64
    requires { length (instr_bytes instr.now) < 2 ^ 64 }
    ensures { result ≡ length (instr_bytes instr.now) }
{
    match instr {
        Instr::BrTable { labels, last } => {
            1 + vector_len::<IndexEntry>(labels) + unsigned_len(*last as u64)
        }
        Instr::Block { result: _, body } | Instr::Loop { result: _, body } => 3 + code_len(body),
        Instr::If {
            result: _,
            then_arm,
            else_arm,
        } => {
            let arms = code_len(then_arm) + code_len(else_arm);
            if else_arm.is_empty() {
                3 + arms
            } else {
                4 + arms
            }
        }
        _ => {
            let (_, immediates) = opcode_and_immediates(instr);
            1 + immediates_len(immediates)
        }
    }
}

/// Appends a sequence of instructions (standard, section 5.4) and the byte that closes it.
#[cycle(put_code)]
#[tactic(auto, using(crate::proofs::Codes::putting))]
pub fn put_code(out: &mut BytesMut, body: &[Instr], close: u8) -> Result<(), AllocError>
    ensures { OnOk result (out.new.items ≡ out.old.items ++ code_bytes (code body.now) ++ close ∷ []) }
{
    for instr in body {
        put_instr(out, instr)?;
    }
    out.extend_from_slice(&[close])
}

#[cycle(put_code)]
#[tactic(auto, using(crate::proofs::Codes::putting_one))]
fn put_instr(out: &mut BytesMut, instr: &Instr) -> Result<(), AllocError>
    ensures { OnOk result (out.new.items ≡ out.old.items ++ instr_bytes instr.now) }
{
    match instr {
        Instr::BrTable { labels, last } => {
            out.extend_from_slice(&[0x0E])?;
            put_vector::<IndexEntry>(out, labels)?;
            put_unsigned(out, *last as u64)
        }
        Instr::Block { result, body } => {
            out.extend_from_slice(&[0x02, result_byte(*result)])?;
            put_code(out, body, END)
        }
        Instr::Loop { result, body } => {
            out.extend_from_slice(&[0x03, result_byte(*result)])?;
            put_code(out, body, END)
        }
        Instr::If {
            result,
            then_arm,
            else_arm,
        } => {
            out.extend_from_slice(&[0x04, result_byte(*result)])?;
            if else_arm.is_empty() {
                put_code(out, then_arm, END)
            } else {
                put_code(out, then_arm, ELSE)?;
                put_code(out, else_arm, END)
            }
        }
        _ => {
            let (opcode, immediates) = opcode_and_immediates(instr);
            put_simple(out, opcode, immediates)
        }
    }
}

/// How many bytes an expression takes (standard, section 5.4.6).
pub fn expression_len(body: &[Instr]) -> u64
    requires { length (expression_bytes (code body.now)) < 2 ^ 64 }
    ensures { result ≡ length (expression_bytes (code body.now)) }
{
    code_len(body) + 1
}

/// Appends an expression (standard, section 5.4.6).
pub fn put_expression(out: &mut BytesMut, body: &[Instr]) -> Result<(), AllocError>
    ensures { OnOk result (out.new.items ≡ out.old.items ++ expression_bytes (code body.now)) }
{
    put_code(out, body, END)
}
