//! Checks that definitions mean what they should, that reading undoes writing, and what a command comes to where nothing fails; apart, as
//! no other crate needs them.
//!
//! Each function of `definition_check` does nothing: its contract is a fact on modules that are written out, which the prover computes
//! from the definitions. So a definition that says another thing than meant shows here.
//!
//! What is written is read back as the same module, its runs merged and its custom sections in their written order (`read_again`); and
//! reading and writing makes the shortest spelling of what the bytes spell (`rewrite`).
//!
//! - `definition_check`: facts on small modules.
//! - `round_trip`: reading behind writing, and writing behind reading.
//! - `sure_commands`: the command over files and output that never fail.
#![tactic(auto)]

mod definition_check;
mod round_trip;
mod sure_commands;

pub use definition_check::{
    a_float_in_dead_code_is_marked, beginnings_of_a_module, each_file_decided, each_module_decided,
    files_fail_at_their_places, images, listings, lists, measures, no_images, one_call_image,
    only_sleeper_pauses, rooms, rules_in_bodies, rules_outside_bodies, saved_locals, valid_modules,
    verdict_is_typing,
};
pub use round_trip::{AgainFault, read_again, rewrite};
pub use sure_commands::over_sure;
