//! Which functions may pause, and the settings that say where a program may.
//!
//! A function may pause where the code of it that can be reached calls a listed import, calls through the table, or calls a function
//! that may pause:
//!
//! ```text
//! (import "env" "sleep" (func $sleep))            ;; --imports env.sl*
//! (func $nap (call $sleep))                       ;; may pause
//! (func $day (call $nap) (call $sum))             ;; may pause
//! (func $sum (unreachable) (call $sleep))         ;; may not
//! ```
//!
//! `may_pause` tells exactly the least such set, and `listed_imports` exactly the imports that are listed: those whose joined name,
//! as `env.sleep`, is an entry of the list or, for an entry as `env.sl*`, begins with it. An entry that no import matches is no fault.
//!
//! - `settings`, `lists`, `imports`: what is rewritten and which locals frames save, lists of imports, and the imports listed.
//! - `calls`, `callers`, `spread`: the calls of each body, turned round into the callers of each function, and followed from the
//!   functions that pause by themselves.
//! - `pausing`: `may_pause`, `pausing_functions`.
#![tactic(auto)]

mod callers;
mod calls;
mod imports;
mod lists;
mod pausing;
mod settings;
mod spread;

pub use imports::listed_imports;
pub use lists::{ImportList, ListFault};
pub use pausing::{may_pause, pausing_functions};
pub use settings::{Choice, Policy, Settings};
