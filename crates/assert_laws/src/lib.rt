//! Modules with asserts, as a definition with its laws.
//!
//! An assert is a test behind a call without number, which traps where the state is 1 (`guard_form`). So an unwind that meets an
//! activation which stands at no numbered call ends there.
//!
//! To assert the pieces is to assert what is written of them (`specs/AssertedUnits.antt`). In state 0 each reduction is one of the module
//! with asserts and of the one without, with a test behind a return or an answer (`specs/Beside.antt`). So what flattening owes the
//! headline is owed of flat code with asserts too, which stands between slim flat code and written code (`specs/Links.antt`).
//! Suspended stacks of activations with asserts stand as frames, come back, and an unwind that meets a test ends there.
//!
//! `specs/EmittedWithAsserts.antt` says what is emitted with asserts: what `emitted_form` says is emitted, by either policy, each function with
//! its tests. A caller may rely on this: the emitted module of a valid one is valid, and is its original, rewritten with asserts: it
//! behaves like it under every plan, whichever calls its activations stand at where it pauses.
//!
//! - `asserted_code`: asserted pieces make the asserted code.
//! - `tested_runs`: runs in state 0.
//! - `tested_links`: what carries over to flat code with asserts.
//! - `asserted_modules`: the emitted module with asserts, for both policies.
#![tactic(auto)]

mod asserted_code;
mod asserted_modules;
mod tested_links;
mod tested_runs;

pub use asserted_code::guarded_code_is_asserted;
pub use asserted_modules::{
    asserted_behaves_given, asserted_is_prepared, asserted_is_short, asserted_is_spelled,
    asserted_is_valid, asserted_is_well_formed, asserted_keeps_sizes, asserted_reads_few,
    asserted_rewrites, asserted_runs_unpaused, functions_have_asserts,
};
pub use tested_links::{stretches_are_followed, tests_are_met};
pub use tested_runs::{
    answers_go_on, asserted_code_is_tested, calls_begin, steps_are_followed,
    waiting_stands_at_tests,
};
