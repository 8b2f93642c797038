//! Flattening: each operand of a function gets a local of its own, its slot, so that none stands on the stack between statements.
//!
//! A pause may come at a call; what stands on the stack there would be lost, and what is in locals can be saved.
//!
//! ```text
//! before                                        after (s0, s1: the slots of an i32 at heights 0 and 1)
//! local.get 0                                   s0 = local 0
//! i32.const 1  i32.add                          s1 = i32.const 1    s0 = i32.add s0 s1
//! call $f                                       s0 = call $f s0
//! ```
//!
//! The law: `flatten_func` answers the flat function that the definition says (`flat_laws/specs/Flatten.antt`), or that memory is
//! lacking, or how many locals it would have, with three more for guards, where these pass 50,000 (`specs/Whole.antt`). It takes
//! time linear in the body and in what is written. Nothing is made better on the way, which is `slim_rewrite`'s matter, and no guard
//! is put here.
//!
//! - `fault`, `numbers`, `marks`: why nothing was flattened; the local of each type at each height or depth, and how they are found.
//! - `survey`, `find`: one pass over a body that finds its slots and result locals (`specs/Surveying.antt`); `locals`: all local types.
//! - `position`, `leaves`, `calls`: where flattening stands, and single instructions: operands read from their slots, results put
//!   into theirs (`specs/Emitting.antt`).
//! - `jumps`, `constructs`: branches and returns, with the moves of their results; blocks, loops and ifs.
//! - `body`, `start`, `whole`: bodies, functions and modules.
#![tactic(auto)]

mod body;
mod calls;
mod constructs;
mod fault;
mod find;
mod jumps;
mod leaves;
mod locals;
mod marks;
mod numbers;
mod position;
mod start;
mod survey;
mod whole;

pub use constructs::Outer;
pub use fault::FlatFault;
pub use numbers::{Numbered, Spot, TypeAt};
pub use whole::{Flattened, flatten, flatten_func};
