//! The outside, as a program sees it: files by name (`Vault`) and printed bytes (`Sink`).
//!
//! A caller is generic over both traits and knows of an object only what these say, in meanings that exist in
//! proofs alone:
//!
//! - `files`: a function from names to bytes, `None` where there is no file of that name. The meaning itself is
//!   `None` of a vault that doesn't tell its files, as real ones don't; then clauses on content claim nothing.
//!   `WhereTold files (λ all. ..)` speaks of them where they are told, and `Becomes old new (λ old new. ..)` of a
//!   change: what was told still is, and is changed so; what wasn't told still isn't (`specs/Told.antt`). The words
//!   for changes stand in `specs/Files.antt`: `ChangesOnly name bytes` says what one file holds and that the others
//!   are as before.
//! - `fetch_faults`, `save_faults` and a sink's `faults`: how many calls have failed. They never fall. A call that
//!   fails for the outside raises its count by exactly one, `FailsOnce old new`, and no other call does. So a program
//!   can't make up such an error, over an object whose count is always 0 there is none, and none that was met is
//!   passed over in silence. A count stands still at the greatest u64 (`specs/Counts.antt`).
//! - `taken`: the bytes that a sink has taken, where it tells them.
//!
//! Calls may take less than they are given. `fetch_whole`, `save_whole` and `put_whole` go on until all is done, and
//! say for each answer what was read, what a file holds and what was printed; these are what a program calls. Want
//! of memory is the one error without a cause.
//!
//! Vaults and sinks stand in `memory_vaults` and `system_vaults`.
#![tactic(auto)]

mod sink;
mod vault;
mod whole;

pub use sink::{Sink, SinkFail};
pub use vault::{Vault, VaultFail};
pub use whole::{FetchFault, PutFault, SaveFault, fetch_whole, put_whole, save_whole};
