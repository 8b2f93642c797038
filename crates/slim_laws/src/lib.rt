//! Slim code as a definition, and its laws: flat code that keeps operands on the operand stack, where flat code has them in slots.
//!
//! ```text
//! flat                                                   slim
//! local.get 0  local.set s0                              local.get 0
//! i32.const 1  local.set s1                              i32.const 1
//! local.get s0  local.get s1  i32.add  local.set s0      i32.add
//! local.get s0  call $f                                  local.set s0  local.get s0  call $f
//! ```
//!
//! `specs/Slim.antt` tells which code is slim beside which flat code, `specs/Emit.antt` and `specs/Parts.antt` the code that is written
//! for flat statements, and for those in pieces between numbered calls. What is written is slim, and slim code has the type of the
//! flat code, its calls in their order, and no more instructions or depth.
//!
//! When both run they have the same store, with equal operand stacks at each branch, construct and call (`specs/Beside.antt`). The
//! slim side makes each reduction of the flat one or none, and sets locals at most before it; so it costs no more than the flat side
//! in sum, and no less than what the flat side pays apart from its slots. At a call that waits, locals agree where the call's frame
//! holds them.
//!
//! Whoever writes a function in slim code owes `SlimPieces` (`specs/SlimModule.antt`) and no more; `slim_rewrite` does. Then the module
//! is valid and stands beside the flat one as the laws ask.
//!
//! - `emit_laws`, `type_laws`, `size_laws`, `part_laws`: code that is written, its type and size, and functions in pieces and units.
//! - `step_laws`: both sides as they run.
//! - `slim_units`: units beside the same units with slim pieces (`specs/SlimUnits.antt`): slim as a whole, alike in calls and numbers, typed.
//! - `slim_module`: the module in which flat code is slim.
#![tactic(auto)]

mod emit_laws;
mod part_laws;
mod size_laws;
mod slim_module;
mod slim_units;
mod step_laws;
mod type_laws;

pub use emit_laws::{code_is_slim_beside_itself, emitted_is_slim};
pub use part_laws::pieces_are_slim;
pub use size_laws::sizes_are_kept;
pub use slim_module::slim_modules_fit;
pub use slim_units::{units_are_alike, units_are_slim, units_stay_typed};
pub use step_laws::{answers_go_on, calls_begin, running_is_followed, stacks_wait};
pub use type_laws::types_are_kept;
