//! Snapshots as values.

use wa_types::Value;

/// A program at a pause, but for its memory.
#[derive(Drop)]
pub struct PausedParts {
    /// The steps that it has taken.
    pub steps_used: u64,
    /// Which of its entries runs, counted from 0.
    pub entry: u32,
    /// How many answers it has taken, that of the import that waits included.
    pub answers: u32,
    /// The function import that waits.
    pub import: u32,
    /// All globals of the module that runs, by index.
    pub globals: Vec<Value>,
    /// How many pages of 65,536 bytes its memory has.
    pub pages: u32,
}

/// What a snapshot holds of a program.
#[derive(Drop)]
pub enum ProgramRecord {
    /// It hasn't begun.
    Fresh,
    /// It waits until the tick `due`. The memory has as many pages as `parts` tells.
    Paused {
        due: u64,
        parts: PausedParts,
        memory: Vec<u8>,
    },
    /// It has ended, and all that is shown behind its end is out.
    Over,
}

/// What a host has of its programs behind so many events.
#[derive(Drop)]
pub struct Snapshot {
    pub events: u64,
    /// By the programs' numbers.
    pub programs: Vec<ProgramRecord>,
}
