//! Activations with their labels, and the stack of those that wait (standard, section 4.2.12).

use wa_types::{Instr, Value};

/// What a branch goes on with, and the instructions left behind it (standard, section 4.2.12).
#[derive(Clone, Copy)]
pub enum Label<'m> {
    /// Of a block or an if: a branch goes on behind it, and carries a value where told.
    Block {
        height: usize,
        carries: bool,
        rest: &'m [Instr],
        skipped: Option<&'m [Instr]>,
    },
    /// Of a loop: a branch begins the body again.
    Loop {
        height: usize,
        body: &'m [Instr],
        rest: &'m [Instr],
    },
}

/// An activation of a defined function (standard, section 4.2.12).
#[derive(Drop)]
pub struct Activation<'m> {
    pub func: u32,
    pub locals: Vec<Value>,
    pub operands: Vec<Value>,
    pub code: &'m [Instr],
    pub labels: Vec<Label<'m>>,
}

/// An activation that waits at a call, which took so many of its operands.
#[derive(Drop)]
pub struct Waiting<'m> {
    pub activation: Activation<'m>,
    pub taken: usize,
}

/// The activations: the one that runs, and those that wait below it, the innermost last.
#[derive(Drop)]
pub struct Stack<'m> {
    pub here: Activation<'m>,
    pub under: Vec<Waiting<'m>>,
}
