//! The module in a file, valid, or why it isn't taken.
//!
//! `read_module` answers the module that a file spells, within bounds; `valid_module` tells whether a module that was read is valid. Why
//! a file's content isn't taken is one `FileFault` for each command: memory is wanting, the file couldn't be read, or what it holds is
//! refused, as `transcript` prints it (`specs/Faults.antt`).
//!
//! - `fault`, `reading`: why a file's content isn't taken; modules in files.
#![tactic(auto)]

mod fault;
mod reading;

pub use fault::FileFault;
pub use reading::{read_module, valid_module};
