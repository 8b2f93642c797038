//! Which modules are valid, the first fault of those that aren't (standard, section 3), and walks over their bodies.
//!
//! `validate` answers a module exactly where it is valid, and else its first fault: the smallest rule that is broken outside the
//! bodies, and where none is, the one at the first place in the bodies. A `Valid` is a valid module that meets the size rule, as its
//! `module` says: who holds one needs no further check. `Valid::proved` makes one of a module that is proved to be valid, without a
//! look at its code. Bodies are checked by `validate_bodies`.
//!
//! `Typing` walks the types of operands over the pruned body of a function of such a module; its contracts speak of the typing
//! relation alone (`specs/Walk.antt`), and `proofs/WalkUses.antt` has what a caller needs at each instruction.
//!
//! - `holders`, `indices`, `outside`, `names`: the rules outside the bodies (standard, sections 3.2 and 3.4), list by list: constant
//!   expressions, indices, limits, start and results, names of exports.
//! - `rules`: those rules in rising number, and the first that fails.
//! - `valid`: modules as a whole.
//! - `walk`: the walk of types.
#![tactic(auto)]

mod holders;
mod indices;
mod names;
mod outside;
mod rules;
mod valid;
mod walk;

pub use valid::{Valid, ValidateFault, validate};
pub use walk::Typing;
