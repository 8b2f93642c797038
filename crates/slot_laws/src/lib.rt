//! Laws of slots, frames and pausing functions; alone, as both the flattening and the frames of a rewritten function rest on them.
//!
//! A function's slots are its pairs of a height and a type, in order, each once, and so are its result locals; together they are no
//! more than the instructions of its pruned body, and one. An operand that stands at a call has exactly one place in the frame under
//! each policy, so none is lost (`specs/SlotBounds.antt`). The functions that may pause are told by one list, and are the least
//! closed set (`specs/PausingFunctions.antt`). What a walk finds that goes as the typing does are the operands of a point
//! (`specs/WalkPoints.antt`), and `Typing` of `wasm_validate` is such a walk (`specs/TypingWalks.antt`).
//!
//! - `slots`: slots, result locals, and the operands that frames save.
//! - `pausing_functions`: which functions may pause.
#![tactic(auto)]

mod pausing_functions;
mod slots;

pub use pausing_functions::{functions_that_may_pause_are_least, one_list_tells};
pub use slots::{
    calls_are_at_points, operands_are_saved_once, results_are_pairs, slots_are_few,
    slots_stand_in_order, walks_stand_at_points,
};
