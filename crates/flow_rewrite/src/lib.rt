//! Guards: writes the body of a flat function with a test of the state before each piece without numbered calls.
//!
//! The form and its laws stand in `guard_form`; here it is written, exactly, in time linear in the function. `guarded_pieces` writes
//! it from a function that stands in pieces and units, as `slim_rewrite` makes them. `specs/UnitView.antt` says which units of
//! `guard_form` these are. It goes over the units of a sequence once, each beside the piece in front of it.
//!
//! Contracts are of one form (`specs/Putting.antt`): with whatever behind it, the new list stands for the old one with this code behind
//! it; so what calls put in a row composes. No statement is left out.
//!
//! No frame is written here, but the code that restores one is handed in: the first test of the state that a function comes to holds it
//! (`specs/Begun.antt`). It goes along as the lead of a sequence, is moved to the first unit, and from a block without a piece in front on
//! to the block's own sequence; no other test has a lead.
//!
//! - `laws`, `numbering`: which calls of a flat function get a number, the places of those at which it may pause.
//! - `labels`, `put`, `guards`: labels raised, single instructions, the guard of a piece, and the first test of a function.
//! - `pieces`, `counts`, `exits`: a function in pieces and units, whether its first call goes unnoted, and where runs go that have
//!   passed a sequence's calls.
//! - `calls`, `conditions`, `sequences`: numbered calls, conditions of ifs, where the arm is picked by the saved index of the call while
//!   the stack is rewound, and `guarded_pieces`, in which each body is written where it is handed in.
#![tactic(auto)]

mod calls;
mod conditions;
mod counts;
mod exits;
mod guards;
mod labels;
mod laws;
mod numbering;
mod pieces;
mod put;
mod sequences;

pub use counts::leaves_first;
pub use guards::Guards;
pub use laws::flat_numbers;
pub use numbering::number_calls;
pub use pieces::{Pieces, Target, Unit, in_own_block};
pub use put::{put_copy, put_operand, put_operands, put_slots, put_to};
pub use sequences::guarded_pieces;
