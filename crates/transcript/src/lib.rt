//! The lines that commands print: one for each event of a program, and one for each refusal.
//!
//! What is printed is told by `Transcript` of `script_model`. A line is built in one vector, part by part; names are escaped so that a line
//! has no blanks but those between its words.
//!
//! Each refusal has its status and its line. A fault of the sink leaves a refusal's status; want of memory is printed without memory,
//! as far as the sink takes it, and its status is 9. Which events come is `world_hosting`'s matter.
//!
//! - `parts`: words, numbers, names, bytes and values.
//! - `ends`, `events`, `strands`: the texts of ends, the lines of events, of programs and of their strands.
//! - `refusals`: the lines of refusals.
//! - `lines`, `refused`: single lines and refusals, over a sink that may fail.
#![tactic(auto)]

mod ends;
mod events;
mod lines;
mod parts;
mod refusals;
mod refused;
mod strands;

pub use events::{Names, line};
pub use lines::{put_last, put_line};
pub use refusals::{Refusal, RefusalKind, fault_line};
pub use refused::{out_of_memory, refuse, refuse_program, refuse_read, refuse_write};
pub use strands::{StrandLineParts, strand_line};
