//! Snapshots: what a host has of its paused programs, written as bytes and read again.
//!
//! A paused program has no stack outside its memory, so its globals, its memory and a few numbers are all of it. `write` gives
//! the bytes of a snapshot, `length` how many, and `read` the snapshot that bytes spell, or refuses bytes that spell none.
//!
//! The one law: bytes spell one snapshot at most (`one_snapshot_is_spelled`), each snapshot one text. Whether a snapshot fits
//! the programs of a script is none of this crate's matter.
#![tactic(auto)]

mod counting;
mod fault;
mod laws;
mod numbers;
mod reading;
mod snapshot;
mod writing;

pub use counting::length;
pub use fault::SnapFault;
pub use laws::one_snapshot_is_spelled;
pub use reading::read;
pub use snapshot::{PausedParts, ProgramRecord, Snapshot};
pub use writing::write;
