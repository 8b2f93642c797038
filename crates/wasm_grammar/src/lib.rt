//! The grammar of the binary format (standard, section 5): which bytes are a file's, and where others fail.
//!
//! A `Machine` holds a stack of goals, what is owed from here to the end of the file. It takes the items of the file one behind
//! another; each puts other goals in the place of the first one. Here a 2 comes at the front of a body, two runs of locals:
//!
//! ```text
//! before the 2:  Count(Runs), Code, Until(end of the body), ..
//! behind it:     Entries(Runs, 2), Code, Until(end of the body), ..
//! ```
//!
//! It never recurses, takes the bytes in pieces, and keeps none. As it goes it notes what a file is judged by besides its spelling
//! (`Marks` of `file_laws`): the first float, the numbers that limits bound, how deep code nests.
//!
//! A caller may rely on `specs/Machine.antt`: where the machine stands, waits and stops; so `check` answers the marks of a file, or
//! the place at which no file goes on. What goals mean is `Begun` of `wa_types`. Short items are passed over at once
//! (`specs/Passing.antt`), with the same answer. No module is built: `wasm_build` does that from bytes that passed.
//!
//! - `passed`, `window`: a file of which only a stretch is held. Bytes are told by their places in the whole file; what came before
//!   is known to proofs alone, so contracts speak of the file from its first byte on.
//! - `front`, `numbers`, `opcodes`: a `Cursor`, a place in bytes that are known to spell something, and what is read there
//!   (`specs/Places.antt`). `immediate_form` tells what follows an opcode, in one table for all that read code (`specs/Forms.antt`).
//! - `goals`, `items`, `next`, `ends`, `stack`: what may come next, the item that it wants, what it leads to, where a content of known
//!   length ends, and the goals that are owed.
//! - `notes`, `short`, `machine`: what an item shows, runs of short items, and the machine.
#![tactic(auto)]

mod ends;
mod front;
mod goals;
mod items;
mod machine;
mod next;
mod notes;
mod numbers;
mod opcodes;
mod passed;
mod short;
pub mod stack;
mod window;

pub use file_laws::Marks;
pub use front::{Cursor, NotSpelled};
pub use goals::TextLen;
pub use items::Item;
pub use machine::{CheckFault, Machine, check};
pub use opcodes::{ImmediateForm, immediate_form};
pub use passed::{Passed, Piece};
pub use window::Window;
