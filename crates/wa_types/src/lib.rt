//! Modules of WebAssembly as trees of plain values, and the definitions of what they mean.
//!
//! A module is a tree (`Module`, `Func`, `Instr`). Contracts speak of it through a view into data of the same shape
//! (`specs/Syntax.antt`, `specs/View.antt`), in which two modules are equal where they hold the same things, whatever memory their
//! vectors have. On that data stand the definitions that every crate above cites:
//!
//! - which bytes spell a file (`specs/Spells.antt` over `specs/Binary.antt`) and a module (`specs/Reading.antt`), which bytes
//!   begin one (`specs/Begun.antt`), and which bytes a module is written as (`specs/Encoding.antt`);
//! - which modules are valid (`specs/Validity.antt` over `specs/Typing.antt` and `specs/Rules.antt`), and the first fault of the others;
//! - which functions may pause, what frames hold, and what a rewritten program may cost (`specs/Pausing.antt`,
//!   `specs/Frames.antt`, `specs/Bounds.antt`).
//!
//! `prune` leaves out what follows an instruction behind which control never goes on, as `i32.const 1` in `br 0; i32.const 1`: its
//! answer is `pruned` of the body. A body and its pruned body have the same type and the same runs, so every analysis above this
//! crate looks at pruned bodies alone. Copies are equal to what they were made from. Bodies are copied level by level: the constructs
//! that are open wait in a list, and no call goes deeper for a deeper body. So they are dropped, too, while there is memory for a list.
//!
//! Laws are the contracts of functions with an empty body. Numbers in LEB128 come from `leb_numbers`. Nothing here reads, checks or
//! runs a module.
//!
//! - `values`, `names`, `operators`, `instrs`, `syntax`: the tree, from values to modules; `control`: what never goes on.
//! - `measures`, `weights`: how many instructions a body has, how deep it nests, and its weight; `pruning`: what can be reached.
//! - `leaves`, `levels`, `bodies`, `parts`, `whole`: copies of instructions, bodies, sections and modules; `drops`: bodies dropped.
//! - `bounds`, `rules`: which limit is passed, which rule of validity is broken.
//! - `typing_laws`, `saved_locals`: laws of the typing relation and first faults, of slots and live locals.
#![tactic(auto)]

mod bodies;
mod bounds;
mod control;
mod drops;
mod instrs;
mod leaves;
mod levels;
mod measures;
mod names;
mod operators;
mod parts;
mod pruning;
mod rules;
mod saved_locals;
mod syntax;
mod typing_laws;
mod values;
mod weights;
mod whole;

pub use bodies::{copy_body, copy_func};
pub use bounds::{Bounds, LimitKind};
pub use drops::drop_body;
pub use instrs::Instr;
pub use leaves::copy_leaf;
pub use leb_numbers::{
    LebFault, Spelling, read_s32, read_s64, read_u32, signed_spelling_laws, unsigned_spelling_laws,
    write_s32, write_s64, write_u32,
};
pub use measures::{count, depth};
pub use names::Name;
pub use operators::{LAST_NUMERIC, NumOp};
pub use pruning::prune;
pub use rules::Rule;
pub use saved_locals::slot_and_live_laws;
pub use syntax::{
    Custom, Elem, Export, Func, FuncType, GlobalDef, Import, ImportKind, Limits, Module, Run,
    Segment, Space,
};
pub use typing_laws::{
    fault_is_first, one_first_fault, pruned_types, up_to_is_cut, valid_has_no_fault,
    valid_is_all_hold,
};
pub use values::{Trap, ValType, Value};
pub use weights::weight;
pub use whole::{copy_around, copy_module};
