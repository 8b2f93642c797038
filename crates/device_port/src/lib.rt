//! Devices: objects that answer a program's imports, lists of them in boxes, and some in memory.
//!
//! A caller knows of a device only what the trait `Device` says, in two meanings that exist in proofs alone:
//!
//! - `seen`: the device as the definition of a world has it (`world_model/specs/World.antt`), its name and its journal, the calls that it has
//!   answered. An answer is one more entry; a refusal leaves the journal; nothing changes the name.
//! - `faults`: how many calls have failed. It never falls, and `Fault` comes only where it rose (`HasRisen` of
//!   `vault_port/specs/Counts.antt`), so a program can't make up a device's fault.
//!
//! `Devices` lends a caller's list of boxed devices: it finds the first of a name, asks one and takes one out, and its clauses say what
//! that is in a world: `journaled` and `taken_out` (`specs/Listed.antt`).
//!
//! The devices in memory tell their journals. `Counter` and `Echo` never answer `Fault`; `FaultAt` does exactly at the calls whose numbers
//! it was made with. What each answers stands in `specs/Answers.antt`. No device here reaches the system.
//!
//! - `device`, `devices`: the trait, and lists.
//! - `journal`, `counter`, `echo`, `fault_at`: journals, and devices in memory.
#![tactic(auto)]

mod counter;
mod device;
mod devices;
mod echo;
mod fault_at;
mod journal;

pub use counter::Counter;
pub use device::{Device, DeviceFail, Reply};
pub use devices::Devices;
pub use echo::Echo;
pub use fault_at::FaultAt;
pub use journal::Asked;
