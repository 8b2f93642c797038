//! A host of several programs on one thread, which share a list of devices and take turns.
//!
//! `Host` tells the lines of a run of the protocol world over its programs (`world_model/specs/World.antt`), one after another: of the
//! unfinished programs the one with the least pair of due tick and number goes on, up to its next pause or its end; before an event the
//! devices are taken out whose detaches have its number; behind a program's end comes what is shown of its memory.
//!
//! ```text
//! program 0, due 0   call, pause until 3
//! program 1, due 0   call, answer, return, end
//! program 0, due 3   answer, return, end
//! ```
//!
//! A caller may rely on this: what a host has told at any time begins a run of the world (`told_lines_begin_a_world`), and once there is
//! no further line it is a whole one. What a line's call took of the devices is told by `specs/Calls.antt`.
//!
//! A host begins with the first event, or goes on behind others with programs that were put back (`Host::resumed`): what it tells is
//! then a run of the world behind those events, whose programs begin where they were put back. One that had ended tells nothing.
//!
//! Programs may ask mailboxes too (`Host::next`): one that receives at an empty mailbox parks with its next pause, and is due again one tick
//! behind the turn that sends it a value; where none is due the first that is parked ends there, stalled. Programs without mailboxes go on by
//! `Host::next_without_mail`.
//!
//! The definition of a world gives each program beforehand all the notes that it will make and all the outcomes that its calls will
//! meet; a host knows only what was told so far. The laws lead from the one to the other, turn by turn (`specs/Turns.antt`) and note by
//! note (`specs/Notes.antt`): what was told is so many whole turns and the beginning of the next.
//!
//! Between two events what is held can be saved (`Host::snapshot`): of programs that began at their start, without bound imports, that is
//! the snapshot of the world up to its last event (`specs/Saving.antt`).
//!
//! Nothing is printed here: that is `world_hosting`'s matter.
//!
//! - `told_turns`, `told_notes`, `told_mail`: worlds as a host meets them, by turns and by notes, without and with mailboxes.
//! - `teller`, `settling`, `turn_taking`: programs that tell events, what an event leads to, and `Turns` (`specs/Standing.antt`).
//! - `mail_turns`: `Turns` of programs with mailboxes (`specs/MailStanding.antt`).
//! - `hosted`, `saving`, `host`, `laws`: programs of `pause_host` as such, what is saved of them, `Host`, and its law.
#![tactic(auto)]

mod host;
mod hosted;
mod laws;
mod mail_turns;
mod saving;
mod settling;
mod teller;
mod told_mail;
mod told_notes;
mod told_turns;
mod turn_taking;

pub use event_order::Show;
pub use host::Host;
pub use laws::{told_lines_begin_a_world, told_lines_with_mail_begin_a_world};
pub use pause_host::{Plan, Program};
pub use told_mail::{
    held_programs_have_stories, notes_with_mail_are_told, told_events_are_of_a_world,
};
pub use told_notes::{notes_are_told_in_turn, told_notes_are_of_a_world};
pub use told_turns::{all_told_is_a_world, told_turns_are_a_world};
