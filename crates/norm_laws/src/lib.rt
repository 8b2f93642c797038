//! Laws of what a written module spells; alone, as what is said of written bytes needs them and nothing else does.
//!
//! A module's bytes spell its norm: runs of locals merged, custom sections in order. No run sees the difference. `specs/Bare.antt`
//! says what a run sees of a module: its locals declared one by one, and no custom section. So the norm of a module makes the same
//! runs, with blocking imports and under the protocol; it is valid where the module is; and where a module is a rewritten one, so is
//! its norm (`specs/Norms.antt`). All of them stand in `norm_runs`.
#![tactic(auto)]

mod norm_runs;

pub use norm_runs::{
    bare_runs_are_the_same, norm_is_rewritten, norm_is_valid, norm_runs_are_the_same,
};
