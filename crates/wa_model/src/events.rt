//! What programs do that can be seen from outside: events, the ends of programs, and the lines of a world.

use crate::answers::Said;
use wa_types::{Name, Trap, Value};

/// A call of a function import: the import's index among the functions, and its arguments in order.
#[derive(Drop)]
pub struct Call {
    pub import: u32,
    pub args: Vec<Value>,
}

/// What a program does that can be seen from outside.
#[derive(Drop)]
pub enum Event {
    /// It called an import.
    Called(Call),
    /// The import's call was told this.
    Answered(Said),
    /// It paused for so many ticks, with so many bytes of its area used.
    Paused { ticks: u32, used: u32 },
    /// It waits at a mailbox, with so many bytes of its area used.
    Parked { used: u32 },
    /// The entry of this number, from 0, returned.
    Returned { entry: u32, value: Option<Value> },
    /// It ended.
    Ended(End),
    /// The bytes of its memory from a place on, after its end; none where they aren't all there.
    Shown { at: u32, bytes: Option<Vec<u8>> },
}

/// An event of the program of this number, from 0, and the tick at which it began.
#[derive(Drop)]
pub struct Line {
    pub tick: u64,
    pub program: u32,
    pub event: Event,
}

/// How a program ends.
#[derive(Drop)]
pub enum End {
    /// All entries have returned.
    Done,
    /// A reduction, or an import, trapped while the program ran.
    Trapped(Trap),
    /// A reduction trapped while the program unwound, with so many bytes of the area used, of its length.
    UnwindTrap { trap: Trap, used: u32, len: u32 },
    /// A reduction trapped while the program rewound.
    RewindTrap(Trap),
    /// The element segment of this number doesn't fit the table.
    ElementsOut(u32),
    /// The data segment of this number doesn't fit the memory.
    BytesOut(u32),
    /// The host has less than so many pages of memory or, where told, table entries.
    HostLimit { entries: bool, found: u32 },
    /// No answer is left for this import.
    NoAnswer(u32),
    /// The next answer is for another import than the one called.
    OtherImport { called: u32, named: Name },
    /// The answer's value isn't of the import's result type.
    BadAnswer { import: u32, value: Option<Value> },
    /// A poke of so many bytes reaches past the memory or into the area.
    BadPoke { at: u32, len: u32 },
    /// An import that isn't listed would pause the program.
    UnlistedPause(u32),
    /// An import would pause the program inside its start function.
    PauseInStart(u32),
    /// The device of this import failed.
    DeviceFault(u32),
    /// The device of this import isn't there.
    NoDevice(u32),
    /// It waits at this import, and no program is left that could send to it.
    Stalled(u32),
    /// The next reduction would pass the program's number of steps.
    StepsSpent(u64),
    /// The module broke this rule of the host's protocol, from 1.
    Broken(u8),
}
