//! A host of programs with strands: several entry calls of one instance, each with an area of its own, which are suspended side by side.
//!
//! `StrandProgram` is one program: it tells its strands' events one after another, of the one whose turn it is. `StrandHost` is several of
//! them on one thread, which share a list of devices: of all strands that haven't ended the one with the least due tick, program and number
//! goes on, up to its next pause or its end; before an event the devices are taken out whose detaches have its number; behind a program's
//! last event comes what is shown of its memory.
//!
//! ```text
//! program 0, strand 0, due 0   call, pause until 2
//! program 0, strand 1, due 0   call, pause until 1
//! program 0, strand 1, due 1   answer, return, end
//! program 0, strand 0, due 2   answer, return, end, what is shown
//! ```
//!
//! A caller may rely on this: what a host has told at any time begins a run of the protocol world of strands
//! (`told_strand_lines_begin_a_world`), and once there is no further line it is a whole one.
//!
//! - `plan`, `setup`: plans with strands, and how they are set up.
//! - `program`, `strands`, `turns`: `StrandProgram`, where its strands stand, and a strand's next event.
//! - `standings`: the laws of where a program stands.
//! - `weaver`, `turn_taking`: programs with strands as a host meets them, and how they take turns.
//! - `hosted`, `host`, `laws`: `StrandProgram` as such a program, `StrandHost`, and its law.
//!
//! `specs/Standing.antt` says where the machine of woven strands is between two notes that are told: in the midst of a strand's turn, between
//! two turns, or at the end; whatever the outcomes of later calls. Its laws (`standings.rt`) lead from one to the next, and to `OnStory`, from
//! which a world of strands is told. `proofs/StandingMoves.antt` has what a strand's single move makes and where it leads,
//! `proofs/StandingGoes.antt` that a strand's stretch up to the end of its turn is one of the woven machine, `proofs/StandingLed.antt` where that
//! stands then. `specs/StrandTelling.antt` says what a program tells next, and what of it a host knows; `specs/StrandStanding.antt` where
//! several stand.
#![tactic(auto)]

mod host;
mod hosted;
mod laws;
mod plan;
mod program;
mod setup;
mod standings;
mod strands;
mod turn_taking;
mod turns;
mod weaver;

pub use event_order::Show as Look;
pub use host::StrandHost;
pub use laws::told_strand_lines_begin_a_world;
pub use plan::{StrandFault, StrandPart, StrandPlan};
pub use program::StrandProgram;
pub use standings::{
    dues_fit, last_moves_lead, standings_are_on_story, turns_begin, turns_end, turns_go_on,
};
pub use turn_taking::StrandLine;
