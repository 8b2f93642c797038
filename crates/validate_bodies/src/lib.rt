//! Whether a body has its type, and if not, its first fault (standard, section 3.3).
//!
//! A body is checked from front to back over a stack of operand types, some of them unknown behind code that can't be reached:
//!
//! ```text
//! i32.const 1      i32
//! br 0             unknown
//! i64.add          i64, unknown below
//! ```
//!
//! What `check_whole` computes stands in `specs/Running.antt`, and `proofs/BodyVerdicts.antt` shows that it is the typing relation of
//! `wa_types`, or the first fault. The rules outside the bodies are `wasm_validate`'s.
//!
//! - `spaces`, `context`: what a module has under each index, imports first, gathered once (standard, section 2.5.1), and what stands
//!   around a body, lent from it (standard, section 3.1.1).
//! - `table`: what an instruction that holds no other takes off the operands and puts on.
//! - `stack`, `bodies`: the operand types, and the check.
#![tactic(auto)]

mod bodies;
mod context;
mod spaces;
mod stack;
mod table;

pub use bodies::{BodyFail, check_whole};
pub use context::Context;
pub use spaces::{GlobalType, Spaces, all_sorts, imported_memory, imported_sorts, imported_table};
pub use stack::Operands;
pub use table::{Asks, asks_at, listing};
pub use wa_ops::{same_types, type_of_value};
