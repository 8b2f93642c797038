//! Builds a module from bytes that are known to spell one, as they come.
//!
//! `Builder` takes whole entries of sections one behind another, and keeps no byte of them (`specs/BuildsPieces.antt`). What each
//! part builds is what the bytes from one place to another spell, whatever follows them; where they end within a part, nothing is
//! built of it (`specs/Builds.antt`). It doesn't find out whether bytes spell a module: `wasm_grammar` has done so.
//!
//! `Entry` says how an entry of a vector is read, so that each vector is proved once. Code is built in a loop over its instructions;
//! constructs that are open wait on a stack, so no call goes deeper for deeper code (`specs/BuildsLevels.antt`).
//!
//! - `build_types`: why nothing was built.
//! - `entry`, `types`: vectors, and what holds no code: types, names, limits, indices (standard, sections 5.2 and 5.3).
//! - `plain`, `putting`: instructions that hold no other, behind their opcodes (standard, section 5.4; `specs/BuildsPlain.antt`).
//! - `levels`, `code`: constructs that are open, and whole expressions (`specs/BuildsCode.antt`).
//! - `imports`, `entries`: entries of each section (standard, section 5.5; `specs/BuildsSections.antt`).
//! - `extents`, `sections`, `builder`: where a content ends, sections one behind another, and the builder.
#![tactic(auto)]

mod build_types;
mod builder;
mod code;
mod entries;
mod entry;
mod extents;
mod imports;
mod levels;
mod plain;
mod putting;
mod sections;
mod types;

pub use build_types::BuildFault;
pub use builder::Builder;
pub use types::ValueTypeEntry;
