//! What answers a call of an import, and what a script says of answers, areas and devices.

use wa_types::{Name, Value};

/// Bytes that an answer puts into a program's memory from a place on.
#[derive(Drop)]
pub struct Poke {
    pub at: u32,
    pub bytes: Vec<u8>,
}

/// What an import's call is told: a value where the import has a result, or that it traps.
#[derive(Clone, Copy)]
pub enum Said {
    Value(Option<Value>),
    Trap,
}

/// What an import's call is answered: what it is told, pokes in order, and ticks. With ticks of 1 or more the
/// program pauses.
#[derive(Drop)]
pub struct Answer {
    pub said: Said,
    pub pokes: Vec<Poke>,
    pub ticks: u32,
}

/// The range of a program's memory that is kept for its suspended stack: its first byte and its length.
#[derive(Clone, Copy, Debug, PartialEq, Eq)]
pub struct Area {
    pub at: u32,
    pub len: u32,
}

/// An answer for the import of a joined name.
#[derive(Drop)]
pub struct AnswerLine {
    pub import: Name,
    pub answer: Answer,
}

/// Before the event of this number, from 1, the first device of this name is taken out.
#[derive(Drop)]
pub struct Detach {
    pub device: Name,
    pub before: u64,
}
