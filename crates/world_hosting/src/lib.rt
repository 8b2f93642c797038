//! Hosts the programs of a script, which share a list of devices, and prints what they tell.
//!
//! `stage_program` makes a program over its module once its lines keep the set-up rules; it has told nothing yet. `host_programs` tells up
//! to sixteen of them to their ends, line by line as they come, and then the last line. What is printed are the lines of a run of the
//! protocol world (`specs/Worlds.antt`), in which each import that a `device` line names asks the device of that line, and the devices
//! are those that the run leaves. That each program of a script is one that can be staged is the law `scripts_fit`.
//!
//! `host_mail_programs` tells programs that share mailboxes besides, likewise (`specs/MailWorlds.antt`).
//!
//! `save_programs` tells programs up to an event and makes the snapshot that is held there (`specs/Saved.antt`).
//!
//! `resume_program` makes a program as its record of a snapshot has it, and `continue_programs` tells such programs from there to their
//! ends (`specs/Continued.antt`).
//!
//! More is known of what was told:
//!
//! - Over modules that are rewritten, and where no original touches a byte of its area, the lines are those of a run of the blocking
//!   world of the originals, with the same devices (`specs/OriginalRuns.antt`); each program whose original does so ends as that does
//!   (`specs/Endings.antt`).
//! - A program whose imports are bound to no device has the lines that it would have alone, its number aside (`specs/ToldAlone.antt`).
//! - Each line `end device fault` stands for a fault that the asked device has counted (`specs/FaultCounts.antt`).
//! - Each device that is left has behind its journal its log: the answered calls to it, in order (`specs/DeviceLogs.antt`).
//! - Where programs share mailboxes, which hide the devices of their names (`specs/MailWorlds.antt`), the lines and ends are those of the
//!   originals likewise, or a program stalls (`specs/MailOriginalRuns.antt`, `specs/MailEndings.antt`); faults are counted and devices
//!   logged as without (`specs/MailFaults.antt`, `specs/MailLogs.antt`).
//! - A snapshot of programs that are set up suits them: each of its records is one that `resume_program` takes (`specs/SnapshotsSuit.antt`).
//!
//! Scripts aren't read here, and modules neither fetched nor rewritten: that is `script_command`.
//!
//! - `staging`, `parting`, `hosting`, `telling`: a program made over its module, the programs parted in what hosts them and what prints
//!   their lines, a host of them, and `host_programs`.
//! - `mail_telling`: `host_mail_programs`.
//! - `laws`: scripts can be staged.
//! - `originals_told`, `told_alone`, `fault_counts`, `device_logs`, `snapshot_laws`: the laws above.
//! - `saving`: programs told up to an event, and their snapshot.
//! - `resuming`, `continuing`: programs that stand for the records of a snapshot, and what is told of them from there.
#![tactic(auto)]

mod continuing;
mod device_logs;
mod fault_counts;
mod hosting;
mod laws;
mod mail_telling;
mod originals_told;
mod parting;
mod resuming;
mod saving;
mod snapshot_laws;
mod staging;
mod telling;
mod told_alone;

pub use continuing::continue_programs;
pub use device_logs::{told_devices_are_logged, told_devices_with_mail_are_logged};
pub use fault_counts::{told_faults_are_counted, told_faults_with_mail_are_counted};
pub use laws::{scripts_fit, scripts_in_range};
pub use mail_telling::host_mail_programs;
pub use originals_told::{
    told_of_originals, told_programs_end_as_originals, told_with_mail_end_as_originals,
    told_with_mail_of_originals,
};
pub use pause_host::ThawFault;
pub use resuming::{Resumed, records_are_resumed, resume_program};
pub use saving::save_programs;
pub use snapshot_laws::snapshots_suit;
pub use staging::{Staged, stage_program};
pub use telling::host_programs;
pub use told_alone::unbound_programs_are_told_alone;
