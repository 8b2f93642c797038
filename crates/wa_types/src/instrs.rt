//! Instructions: a tree in which a construct holds its bodies (standard, section 2.4).

use crate::operators::NumOp;
use crate::values::{ValType, Value};

/// An instruction (standard, section 2.4). A construct holds its bodies, without their ends.
#[derive(Drop)]
pub enum Instr {
    Unreachable,
    Nop,
    Drop,
    Select,
    Return,
    MemorySize,
    MemoryGrow,
    MemoryCopy,
    MemoryFill,
    Const(Value),
    Num(NumOp),
    Br(u32),
    BrIf(u32),
    BrTable {
        labels: Vec<u32>,
        last: u32,
    },
    Call(u32),
    CallIndirect(u32),
    LocalGet(u32),
    LocalSet(u32),
    LocalTee(u32),
    GlobalGet(u32),
    GlobalSet(u32),
    /// An integer load by its opcode, `28` to `35` without the floats; the alignment is an exponent of 2.
    Load {
        op: u8,
        align: u32,
        offset: u32,
    },
    /// An integer store by its opcode, `36` to `3E` without the floats; the alignment is an exponent of 2.
    Store {
        op: u8,
        align: u32,
        offset: u32,
    },
    Block {
        result: Option<ValType>,
        body: Vec<Instr>,
    },
    Loop {
        result: Option<ValType>,
        body: Vec<Instr>,
    },
    If {
        result: Option<ValType>,
        then_arm: Vec<Instr>,
        else_arm: Vec<Instr>,
    },
}
