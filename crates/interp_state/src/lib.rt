//! What the interpreter's configurations are made of, and the instructions that touch operands and the store alone.
//!
//! A `Stack` is viewed as the activations of a configuration (`specs/View.antt`; standard, section 4.2). Code and labels are slices
//! borrowed from the module's tree: nothing of it is copied. What an instruction does to all operands and to the store is its effect
//! (`specs/Effects.antt`), told by a `Flow`. Labels, calls and locals are `interp`'s.
//!
//! An activation has room for the greatest height of its operands and depth of its labels (`specs/Rooms.antt`), which are computed
//! once a function when its `Program` is made, so that instructions push operands without taking memory.
//!
//! `open` makes the store of a new instance, which is instantiation before start, of the module itself (standard, section 4.5.4): it
//! writes all segments where all of them fit, and else answers how instantiation ends (`specs/Faults.antt`).
//!
//! - `store`, `activation`, `flow`: the store, activations with their labels, and what comes of a reduction.
//! - `values`, `operands`, `numbers`, `memory`, `bulk`: values by index, constants and parametric instructions, numeric ones, those of
//!   memory and globals, and copies and fills of the memory.
//! - `spaces`, `types`, `rooms`, `program`: limits and types by index, what an activation reserves, and a module with both looked up.
//! - `segments`, `make`, `restoring`: segments tested and written, the store of a new instance, and that of one that is put back.
#![tactic(auto)]

mod activation;
mod bulk;
mod flow;
mod make;
mod memory;
mod numbers;
mod operands;
mod program;
mod restoring;
mod rooms;
mod segments;
mod spaces;
mod store;
mod types;
mod values;

pub use activation::{Activation, Label, Stack, Waiting};
pub use bulk::{memory_copy, memory_fill};
pub use flow::Flow;
pub use make::{MakeFault, least_of, most_of, open};
pub use memory::{get_global, load_at, memory_grow, memory_size, set_global, store_at};
pub use numbers::numeric;
pub use operands::{choose, constant, drop_top};
pub use page_memory::{Pages, page_bound};
pub use program::{Program, make_program};
pub use restoring::restore;
pub use rooms::Room;
pub use spaces::all_memories;
pub use store::Store;
pub use values::{set_at, value_at};
pub use wa_ops::operand_count;
