//! Reads modules from bytes and from files (standard, section 5).
//!
//! Bytes are passed over twice. The machine of `wasm_grammar` finds out whether they are a whole file, and else where they fail,
//! and notes the first float, the numbers that limits bound, and where nesting goes too deep. Behind it `wasm_build` makes the
//! module, entry by entry. A `Reader` does both as the pieces of a file come, and holds no byte that is built; `read_file` fetches a
//! file into a buffer of 65,536 bytes and feeds a reader, so that a whole file is never held.
//!
//! A caller may rely on this: the answer is the module that the bytes spell, within the bounds, or the first reason against it
//! (`specs/Answers.antt`), and it is the same for a file however it is cut (`specs/Held.antt`). That a file can't be read comes
//! before each cause in what it holds, and that it is too long before all others. Whether the module is valid isn't asked.
//!
//! - `read_fault`, `locals`, `reader`: why nothing was read, the first function with too many locals, and `read` of a whole file.
//! - `progress`, `pieces`: how far a file has been checked and built, and the `Reader`.
//! - `fault`, `reading`: why a file gave no module, and `read_file`.
#![tactic(auto)]

mod fault;
mod locals;
mod pieces;
mod progress;
mod read_fault;
mod reader;
mod reading;

pub use fault::ModuleFault;
pub use pieces::Reader;
pub use read_fault::ReadFault;
pub use reader::read;
pub use reading::read_file;
