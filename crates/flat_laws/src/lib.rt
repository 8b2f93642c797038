//! Flattening as a definition, in which each operand lives in a slot, and the laws of flat code that need no run.
//!
//! The definition is the simplest one: nothing is forwarded, nothing is dropped (`specs/Flatten.antt`). `flatten` computes it, and
//! what flat code does when it runs is `flat_runs`.
//!
//! A caller may rely on this: the flat code of a valid module's function is typed, small and shallow, and the module in which some
//! functions are flat is valid (`specs/FlatModule.antt`).
//!
//! - `module_laws`: of flat bodies and the flat module.
//! - `flat_functions`: what the calls that take a flat function ask of it (`specs/FlatMeets.antt`).
//! - `local_rules`: which locals flat code reads and writes: own locals where the original does, and of the slots those of operands that
//!   stand on its stack (`specs/OwnUses.antt`, `specs/Behind.antt`).
#![tactic(auto)]

mod flat_functions;
mod local_rules;
mod module_laws;

pub use flat_functions::flat_functions_fit;
pub use local_rules::{own_locals_stay, stack_alone_is_read};
pub use module_laws::{flat_bodies_are_typed, flat_code_is_small, valid_modules_are_flattened};
