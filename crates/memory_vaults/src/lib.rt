//! Files and output in memory, for who runs commands without a system.
//!
//! `SureVault` and `SureSink` keep all in memory and never fail but for want of it. `MemVault` and `MemSink` fail
//! exactly at the calls whose numbers they were made with. What each holds is told (`specs/InMemory.antt`). `SureDisk` and
//! `SureOut` are the sure ones as a disk and an output, as `system_vaults` asks for.
#![tactic(auto)]

mod mem_sink;
mod mem_vault;
mod schedule;
mod sure_system;
mod sure_vault;

pub use mem_sink::{MemSink, SureSink};
pub use mem_vault::MemVault;
pub use sure_system::{SureDisk, SureOut};
pub use sure_vault::{NamedFile, SureVault};
