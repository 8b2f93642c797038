//! The program's one call: a command from its words to its status.
//!
//! `asyncify` runs the command that its words spell, over a vault of files, a sink for what it prints and devices that the caller lends:
//! `transform`, which rewrites a module (`transform_command`); `host` and `run`, which play a script, and `save` and `continue`, which keep
//! one in a file and go on from there (`script_command`); and `gen`, which writes a generated module (`gen_module`), has it rewritten and
//! run through its one pause, and prints three lines on it (`specs/Printed.antt`).
//!
//! A caller may rely on this: a call has one end, by its status, with its reason, what it printed and what became of the files and the
//! devices (`specs/Ends.antt`). What real files and a real terminal do with that stands in `asyncify_cli`.
//!
//! - `command`, `playing`, `snapshots`: the call, scripts, and their snapshots; `words`: a law of the words of `transform`.
//! - `generating`, `writing`, `program`, `generated_runs`: the command `gen`; the module written into a file; the program over it,
//!   rewritten; and its run, event by event (`specs/Playing.antt`).
#![tactic(auto)]

mod command;
mod generated_runs;
mod generating;
mod playing;
mod program;
mod snapshots;
mod words;
mod writing;

pub use command::asyncify;
pub use generated_runs::Played;
pub use words::transforms_are_spelled;
