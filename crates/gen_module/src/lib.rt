//! A module of any number of functions, for trying: each calls the one before it, and the first an import.
//!
//! The calls stand below an operand, in an arm of an `if` and in a loop, in turns, so that each form of pause is met
//! (`specs/Generated.antt`). Whatever it is rewritten as, its run is known: the events, the bytes in use at the pause and the value that
//! it returns (`specs/GeneratedRuns.antt`).
#![tactic(auto)]

mod generated_modules;
mod generating;

pub use generated_modules::{
    few_functions_return, generated_modules_are_small, generated_modules_are_valid,
    generated_modules_pause_once,
};
pub use generating::generate;
