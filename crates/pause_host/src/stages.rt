//! Where a program with an instance stands between two events, and what stays of it on its way.

ghost use Rattle.std.specs.Prelude.{◌≡◌, false};
ghost use Rattle.pause_host.specs.Views.{is_paused, stage_told};

use std::alloc::Global;
use std::collections::VecDeque;
use wa_model::{Answer, AnswerLine, Area, Call, End, Event, Said};
use wa_types::{Name, Trap, ValType, Value};

/// The functions of the five exports through which a host unwinds and rewinds a stack.
#[derive(Clone, Copy)]
pub struct Exports {
    pub start_unwind: u32,
    pub stop_unwind: u32,
    pub start_rewind: u32,
    pub stop_rewind: u32,
    pub get_state: u32,
}

/// An imported function as a host sees it: its joined name, its base name, and its result where it has one.
#[derive(Drop)]
pub struct HostImport {
    pub name: Name,
    pub base: Name,
    pub result: Option<ValType>,
}

/// What stays of a program on its way: its imported functions, the devices to which they are bound, which of them are listed where
/// that is told, its area, further ranges that answers leave alone, the exports that the host calls, and its number of steps.
#[derive(Drop)]
pub struct Setting {
    pub alloc: Global,
    pub imports: Vec<HostImport>,
    pub binds: Vec<Option<Name>>,
    pub listed: Option<Vec<bool>>,
    pub area: Area,
    pub others: Vec<Area>,
    pub exports: Exports,
    pub steps: u64,
}

/// An entry call: the function and its arguments.
#[derive(Drop)]
pub struct EntryCall {
    pub func: u32,
    pub args: Vec<Value>,
}

/// What is left of a plan: the number of the entry that runs or comes next, those that are still to be called, and the answer lines
/// that no call has taken.
#[derive(Drop)]
pub struct Left {
    pub number: u32,
    pub entries: VecDeque<EntryCall>,
    pub answers: VecDeque<AnswerLine>,
}

/// What the host has called: an import as the start function, the start function, or an entry.
#[derive(Drop)]
pub enum Task {
    Outermost,
    Start,
    Entry(EntryCall),
}

/// A pause: the entry that is called again, the import whose call waits, and its answer.
#[derive(Drop)]
pub struct Pause {
    pub entry: EntryCall,
    pub import: u32,
    pub answer: Answer,
}

/// A value that was told, with the task that waits for it.
#[derive(Drop)]
pub struct Given {
    pub task: Task,
    pub value: Option<Value>,
}

/// Where a program with an instance stands between two events.
#[derive(Drop)]
pub enum Stage {
    /// The next entry is to be called, or all have returned.
    Free,
    /// A call was told whose answer is told next: a value, or that the import traps.
    Answering { task: Task, answer: Answer },
    /// The answer was told, and its value is to be given.
    Giving { task: Task, value: Option<Value> },
    /// A call was told whose answer pauses, be it a trap or a value.
    Pausing(Pause),
    /// The pause was told.
    Paused(Pause),
    /// The end is told next; so it is behind a trap that was told.
    Ending(End),
    /// The end was told.
    Ended(End),
}

/// An event, and where the program then stands.
#[derive(Drop)]
pub struct Moved {
    pub event: Event,
    pub stage: Stage,
}

/// An event, where the program then stands, and its import where it tells a receive at an empty mailbox.
#[derive(Drop)]
pub struct Heard {
    pub moved: Moved,
    pub receive: Option<u32>,
}

/// A new call of an import, for a task.
#[derive(Drop)]
pub struct NewCall {
    pub task: Task,
    pub call: Call,
}

/// What comes of a stage: an event, or a new call of an import for a task, whose outcome is asked for next.
#[derive(Drop)]
pub enum Next {
    Told(Moved),
    Calls { task: Task, call: Call },
}

/// Where a program stands behind an answer that was told: a trap ends it, and an import that is the start function waits for
/// nothing.
pub(crate) fn stage_told(task: Task, said: Said) -> Stage
    ensures stage { result ≡ stage_told task said }
    ensures apart { is_paused result ≡ false }
{
    match said {
        Said::Value(value) => match task {
            Task::Outermost => Stage::Free,
            Task::Start => Stage::Giving {
                task: Task::Start,
                value,
            },
            Task::Entry(entry) => Stage::Giving {
                task: Task::Entry(entry),
                value,
            },
        },
        Said::Trap => Stage::Ending(End::Trapped(Trap::Import)),
    }
}
