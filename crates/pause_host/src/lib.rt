//! A program over a prepared module, which a host pauses and resumes: event by event, as the protocol has it.
//!
//! `Program::new` asks of the module and the plan what has to hold before anything runs. `advance` tells the next event of the run under
//! the protocol, and leaves the instance with the globals and the memory of that event: what an answer writes into the memory isn't
//! there at a pause. A host keeps no paused program's stack: it unwinds the stack into the area through the exports of the module
//! (`unwind`), and has the entry called again to rewind it (`rewind`).
//!
//! ```text
//! call env.read   the import is called; its answer takes 3 ticks
//! pause           unwound: nothing waits in the instance, the area holds the stack
//! answer          rewound: the import's call waits again, and is answered
//! ```
//!
//! A caller may rely on this: what a program tells is its story in the protocol world (`specs/Programs.antt`), as long as it runs a
//! beginning of it, and the whole one once its end was told. A new call of an import that is bound to a device is answered by the first
//! device of that name, and any other by the program's next answer line; a call that is made again after a pause asks nobody. Between
//! its events other programs may use the same devices; of a program alone, without devices, more is known (`FollowsAlone`).
//!
//! Where there are mailboxes an import may be bound to one in place of a device. A receive at an empty mailbox parks the program: its
//! pause is told as parking, and it goes on once it is settled with a value, or ends there (`specs/Mailing.antt`).
//!
//! What is to be written of a paused program `parts` and `memory` give: its stack stands in its memory. `thaw` puts one back: it tells
//! what the world's program tells that begins at that pause (`specs/Thawing.antt`).
//!
//! With what waits in the instance a `Stage` is a place of the protocol's machine (`specs/Views.antt`); what each call of a host tells
//! is the machine's next note (`specs/Moves.antt`). Who goes next among several programs is `many_host`'s matter.
//!
//! - `stages`, `exports`, `memory`, `ends`: where a program stands between two events, calls of the five exports, bytes written into its
//!   memory, and its end as an event.
//! - `unwinding`, `rewinding`: both halves of a pause.
//! - `plan`, `entries`, `bindings`, `setting`: what a program is given, and what the host has to know of its module all along.
//! - `running`, `events`: what comes of each stage, which is an event or a new call of an import. Of these `told` alone, which comes last, is lent
//!   devices and mailboxes: it asks for the call's outcome.
//! - `asking`, `program`: what answers a call, and `Program`.
//! - `laws`: what calls have met is what worlds with mailboxes have them meet.
//! - `globals`, `thawing`: which globals a program can be put back with, and a program that is put back.
#![tactic(auto)]

mod asking;
mod bindings;
mod ends;
mod entries;
mod events;
mod exports;
mod faults;
mod globals;
mod laws;
mod memory;
mod plan;
mod program;
mod rewinding;
mod running;
mod setting;
mod stages;
mod thawing;
mod unwinding;

pub use bindings::unbound;
pub use faults::ThawFault;
pub use host_setup::{Entry, SetupFault};
pub use laws::calls_meet_as_in_worlds;
pub use plan::Plan;
pub use program::Program;
pub use snapshot_store::PausedParts;

// For `strand_host`, which has several stages over one instance.
pub use ends::copy_end;
pub use entries::entry_calls;
pub use events::next_event;
pub use running::{tell_answer, told};
pub use setting::setting_of;
pub use stages::{
    EntryCall, Exports, Given, Heard, HostImport, Left, Moved, Next, Pause, Setting, Stage, Task,
};
