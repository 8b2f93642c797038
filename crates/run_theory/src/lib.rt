//! What holds of the runs of every module, and the words in which passes speak of runs.
//!
//! The laws of `determined_runs` hold of every module: a configuration has one next one, runs are determined and grow with
//! the cost that they may take, and code that can't be reached changes no run. Those of `growth_laws` hold of valid
//! modules: parts behind a module's own leave its reductions as they were. Those of `fitting_laws` are the soundness of
//! types: no configuration that fits a valid module is stuck, and calls and answers of the right types reach no other
//! (`specs/Fitting.antt`). Those of `quiet_laws` say the headline for modules of which nothing may pause.
//!
//! No definition of the headline needs this crate. Read in the order `Alone`, `Growth`, `Heights`, `Fitting`, `Keeping`,
//! `LawfulStacks`, `Pruning`, `DeterminedRuns`, `Shown`, `Quiet`, and of flat code `Flat`, `FlatView`, `FlatTyped`, `FlatFits`, `Touches`.
#![tactic(auto)]

mod determined_runs;
mod fitting_laws;
mod growth_laws;
mod quiet_laws;

pub use determined_runs::{
    moves_add_up, one_next_configuration, pruned_runs_are_the_same, reductions_end_one_way,
    reductions_trap_themselves, runs_are_determined, runs_are_moves, runs_grow,
};
pub use fitting_laws::{calls_fit, heights_within, openings_fit, reductions_fit};
pub use growth_laws::{base_is_valid, calls_are_named, instances_stay, reductions_stay};
pub use quiet_laws::{none_told_is_quiet, quiet_modules_behave, runtime_is_valid};
