//! Writes slim code: the pieces of flat functions with operands left on the operand stack instead of in their slots, and guards around.
//!
//! `guard_slim` writes each flat function of a module with slim pieces; what is asked of these is `SlimPieces` of `slim_laws`
//! (`specs/Functions.antt`). A function whose statements don't use slots as a stack keeps its plain pieces, in which each operand
//! stands in its local. `guard` writes any flat function with plain pieces. Either keeps the flat function's own block, as the only unit of
//! the sequence that is guarded.
//!
//! The walk goes over the statements of a sequence once. Its state is a stack of the slots of all operands, the lowest first: up to a
//! place they hold their operands, those behind it stand on the operand stack of the slim code. Whether a slot is on the stack is told
//! at once by a table of places. A numbered call, or a construct that holds one, opens a unit, which is held until the piece behind it
//! is complete. In front of a unit, and at each end, all slots are set, but for the condition of an `if`, which may stay on the
//! operand stack.
//!
//! What a step does to code is said for whatever comes (`specs/Walking.antt`), and for all statements that may follow
//! (`specs/Coming.antt`): what these come to from there, all come to from here.
//!
//! A move pops its operand or doesn't, and a flat statement doesn't tell which: it is guessed from the statement behind it. A wrong
//! guess costs the slim code of a function, and no more.
//!
//! - `guesses`: what is guessed.
//! - `stack`, `operators`, `moves`, `branches`: the walk's state, what instructions take, plain statements and moves, branches and calls
//!   without number.
//! - `sequence`, `single`, `calls`, `constructs`: a sequence so far, single statements, numbered calls, and constructs.
//! - `walk`, `gathering`, `function`: the walk, that to plain pieces, and a function in pieces and units.
//! - `guarded`, `plain`: guarded code from slim pieces, and a guarded function from plain ones.
#![tactic(auto)]

mod branches;
mod calls;
mod constructs;
mod function;
mod gathering;
mod guarded;
mod guesses;
mod moves;
mod operators;
mod plain;
mod sequence;
mod single;
mod stack;
mod walk;

pub use constructs::Outside;
pub use guarded::{Slots, guard_slim};
pub use plain::{GuardedFunc, guard};
pub use sequence::Head;
pub use stack::{is_slot, take};
