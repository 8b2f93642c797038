//! The command `transform`: a module in one file, rewritten into another.
//!
//! `run_transform` reads the source, rewrites it so that the functions that may pause can be paused and resumed, writes it and prints one
//! line.
//!
//! A caller may rely on this: with status 0 the output file holds exactly the bytes of that module, and no other file changed; each
//! refusal has its cause, its line and what it leaves (`specs/Transforms.antt`). A call has one end, with its reason
//! (`specs/Ends.antt`).
//!
//! `rewrite` reads the module in a file within the limits of a source, refuses it by the first cause there is (`specs/Sources.antt`), and
//! answers the bytes of the rewritten one. `rewritten` does the same without bytes, for whoever runs the module.
//!
//! - `source`, `running`: from the file of a source to bytes, and to a module that is run.
//! - `transform`, `report`, `command`: from file to file, what is printed, and the command.
#![tactic(auto)]

mod command;
mod report;
mod running;
mod source;
mod transform;

pub use command::run_transform;
pub use running::{Runnable, rewritten};
pub use source::Written;
