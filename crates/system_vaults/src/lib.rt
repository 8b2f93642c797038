//! The files of a system and its output, as a vault and a sink.
//!
//! `FileVault` and `OutSink` stand on what a system does by one call each: `Disk` reads, cuts and writes files, `Out` writes output. What
//! these hold is told where they tell it, and so by the vault and the sink, which are proved against it: bytes are those of the place that was
//! asked for, and a save leaves the file's beginning and what was taken. Their counts of faults are those of the disk and of the output: neither
//! makes up a failure. Both keep what the system last said of a call that failed (`cause`), for people.
//!
//! `SystemDisk` and `SystemOut` are the real ones. They count their failed calls, and don't tell what they hold: that files and output do what
//! the two traits say is trusted of them (`system_files`), and shown by tests. A call that a signal interrupts they make again (`retrying`).
//! Others that tell it stand in `memory_vaults`.
#![tactic(auto)]

mod disk;
mod faults;
mod file_vault;
mod opened_file;
mod out;
mod out_sink;
mod retrying;
mod system_disk;
mod system_files;
mod system_out;

pub use disk::Disk;
pub use file_vault::FileVault;
pub use out::Out;
pub use out_sink::OutSink;
pub use system_disk::SystemDisk;
pub use system_out::SystemOut;
