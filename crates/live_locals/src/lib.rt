//! Which locals the frames of a flat function have to keep under the policy `live`.
//!
//! At each numbered call these are the slots of the operands on the stack, and each other local that some path from the call reads
//! before it writes it:
//!
//! ```text
//! total = 5
//! answer = call ask n           keeps total and n; answer is written before it is read
//! return total + answer * n
//! ```
//!
//! `live_rows` answers for each local the calls that keep it, in rows, and `live_at` a set for each call, exactly those of
//! `specs/LiveAt.antt`; what they keep is what the policy saves in frames (`live_is_saved`). A statement is passed over a few times, and
//! once more for each 63 loops around it and each time that one of these is at most half of what it stands in.
//!
//! A body is passed over backwards with one set of locals: of each it tells whether it is read before it is written from some place on
//! (`specs/Sets.antt`). Under a label a branch goes on with the set of its target. A path that comes to a loop's start again reads
//! nothing that one which begins there doesn't read, so what a loop reads first is known after one pass over its body with nothing told
//! for its own label; with that told, a second pass finds the sets of the calls inside.
//!
//! Where loops stand deep inside each other, one pass over the whole nest tells in 64 worlds at once, a bit of a word for each, what
//! the heads of the loops inside read first. In world 0 no label of a loop tells anything, and in world `1 + level` that of the loop
//! inside `level` others tells everything. What is read first from some place on is the union of what is read in world 0, and for each
//! loop around the place whose head reads a local first, of what is read in its world (`specs/Heads.antt`); from the outermost loop
//! inwards it is known which worlds hold.
//!
//! - `sets`, `steps`, `passes`: sets, and statements passed over backwards.
//! - `sizes`, `levels`, `word_sets`, `word_steps`, `word_passes`: which loops get words, worlds by level, and passes in all worlds.
//! - `nests`, `keeping`, `rows`, `calls`: what is known in a nest of loops, the calls that keep each local, those of statements, and
//!   `live_rows`.
//! - `saved_locals`, `laws`: that what is kept is what the policy saves; an example.
#![tactic(auto)]

mod calls;
mod keeping;
mod laws;
mod levels;
mod nests;
mod passes;
mod rows;
mod saved_locals;
mod sets;
mod sizes;
mod steps;
mod word_passes;
mod word_sets;
mod word_steps;

pub use calls::{live_at, live_rows};
pub use flow_rewrite::number_calls;
pub use laws::countdown_keeps;
pub use saved_locals::live_is_saved;
