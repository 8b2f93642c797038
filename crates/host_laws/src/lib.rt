//! What a program tells under the host's protocol, event by event, and what answers its calls; below `pause_host`, as it runs nothing.
//!
//! Nothing here speaks of an interpreter. A host doesn't know which outcomes a program's later calls will meet, so a stretch of its run
//! is told for all of them (`specs/Stretch.antt`). Between two events a program stands at a place: notes that were made and not told
//! yet, and where the run is behind them (`specs/Places.antt`). What a program has told begins a story of the protocol world, and is the
//! whole one once the end is told (`specs/Stories.antt`, `specs/Laws.antt`): nothing is known of what other programs ask of the devices
//! between its events; of a program that is alone also its run as a world is.
//!
//! A new call meets an answer line or a device, and a device's count rises exactly where its fault is told (`specs/Supplies.antt`).
//! `next_answer` takes the line that answers the call, or tells why none does. `device_outcome` asks the device to which an import is
//! bound, or tells that there is none or that it failed. `answer_fault` is the first test that the answer fails: its value, its pokes in
//! order, and whether it may pause there. `wa_model` has all three as definitions (`MeetsLine`, `MeetsDevice`, `fault_of`).
//!
//! - `laws`: laws of stretches and of what is told.
//! - `lines`, `device`, `faults`: answer lines, devices, and the tests of an answer.
#![tactic(auto)]

mod device;
mod faults;
mod laws;
mod lines;

pub use device::device_outcome;
pub use faults::{AnsweredCall, answer_fault};
pub use laws::{
    calls_meet_in_turn, events_are_told_alone, events_are_told_in_turn, places_are_on_a_story,
    stories_are_worlds, stretches_compose, told_events_are_a_story,
};
pub use lines::{Met, next_answer};
