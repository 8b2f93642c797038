//! Flat functions: statements whose operands are locals and constants.

use wa_types::{Instr, ValType, Value};

/// What a flat statement takes in: a local or a constant.
#[derive(Clone, Copy)]
pub enum Operand {
    Local(u32),
    Const(Value),
}

/// A statement of a flat function: between two statements no operand stands on the stack.
#[derive(Drop)]
pub enum Stmt {
    /// The operands in order, then `op`, which is neither a call nor control, then `local.set` of `to` where
    /// `op` has a result.
    Plain {
        op: Instr,
        args: Vec<Operand>,
        to: Option<u32>,
    },
    /// The operand, then `local.set` of `to`.
    Move {
        to: u32,
        from: Operand,
    },
    /// A `local.get` of each of the last `args` entries of `stack`, then the call `op`, then `local.set` of
    /// `to` where it has a result. `stack` holds the slots of all operands just before the call, lowest first.
    Call {
        op: Instr,
        stack: Vec<u32>,
        args: u32,
        to: Option<u32>,
    },
    Br(u32),
    /// The operand, then `br_if`.
    BrIf {
        cond: Operand,
        label: u32,
    },
    /// The operand, then `br_table`.
    BrTable {
        index: Operand,
        labels: Vec<u32>,
        last: u32,
    },
    Block(Vec<Stmt>),
    Loop(Vec<Stmt>),
    /// The operand, then an `if` without a result.
    If {
        cond: Operand,
        then_arm: Vec<Stmt>,
        else_arm: Vec<Stmt>,
    },
    Unreachable,
}

/// A function whose operands stand in locals: a block around `body`, then `local.get` of `result` where told.
/// `func` is the function's index, `sort` that of its type; `locals` are its parameters, declared locals,
/// slots and result locals.
#[derive(Drop)]
pub struct FlatFunc {
    pub func: u32,
    pub sort: u32,
    pub locals: Vec<ValType>,
    pub result: Option<u32>,
    pub body: Vec<Stmt>,
}

/// Flat functions, in index order.
#[derive(Drop)]
pub struct FlatModule {
    pub funcs: Vec<FlatFunc>,
}
