//! The commands that play a script: `host` and `run`, and on snapshots of its programs `save` and `continue`.
//!
//! `play_script` opens the script, whose programs are then all set up, and prints the transcript of what they tell, with the devices that
//! the caller lends (`specs/Transcripts.antt`): of `host` over prepared modules as they are, of `run` over originals that are rewritten
//! first. It has one end, by its status, with a reason, what was printed and what became of the devices (`specs/Ends.antt`). To open a
//! script is to read it, then each of its programs in order, its module first and then its set-up rules: `open_script` answers the programs,
//! or why the first that can't be set up isn't (`specs/Playing.antt`). What is told goes by the script's lines (`specs/Told.antt`): of programs that
//! share mailboxes, of programs with strands, calls that are suspended side by side in one instance, or of programs that have neither.
//!
//! `save_script` and `continue_script` set the programs up as `run` does; the script has no line of a device, mailbox or strand, which is their own rule 18
//! (`specs/PlainScripts.antt`). `save_script` prints the lines of the first events, or of all where there are fewer, and then writes the
//! snapshot. `continue_script` reads a snapshot, whatever wrote it, refuses one that doesn't fit the script's programs, and prints the lines
//! that are left and the last line, with all events counted. What is told, and what is refused, is in `specs/SnapshotTelling.antt`. Such a
//! call too has one end, with what it leaves (`specs/SnapshotEnds.antt`); where the files are told, that is its answer
//! (`specs/SnapshotAnswers.antt`).
//!
//! More is known:
//!
//! - What `run` prints of a script without strands, where no original touches a byte of its area, are the lines of a run of the blocking world of the originals
//!   themselves (`specs/RunOriginals.antt`); a program whose bound is within its steps comes to its end (`specs/Completeness.antt`).
//! - What `host` tells of programs over rewritten modules is what their originals do, where these pause at listed imports alone
//!   (`specs/HostedOriginals.antt`): a module that was transformed, and then is hosted.
//! - The text of a save and that of a continue from its snapshot are together the transcript of one run of the originals: each rewrites the
//!   programs' modules on its own, and stands for the same originals (`specs/JoinedRuns.antt`).
//! - A snapshot that was saved suits its script's programs, and a continue over the same script and modules is refused for nothing but reading
//!   (`specs/SavedSnapshots.antt`).
//! - Whatever is played without strands, the devices count the faults that the lines tell (`specs/PlayedFaults.antt`); so they do with strands, of
//!   which `specs/StrandTold.antt` says what is told.
//! - A script that can be played isn't refused, and one that is refused is refused for one cause (`specs/Laws.antt`).
//!
//! - `way`, `modules`, `programs`, `opening`: whether modules are rewritten, a program's module, the programs in order, and the script.
//! - `staging`, `playing`: programs over their modules, and the commands `host` and `run`.
//! - `strand_planning`, `strand_starts`, `strand_staging`: programs with further strands: the plan of one, one made of its plan, and all of a script.
//! - `strand_parting`, `strand_hosting`, `strand_printing`, `strand_telling`: these parted in what hosts them and what prints their lines, a host of
//!   them, a single line, and all of them told to their ends (`specs/StrandWorldsTold.antt`, `specs/StrandTranscripts.antt`).
//! - `strand_playing`: a script with strands, played (`specs/StrandTold.antt`).
//! - `plain_scripts`, `stop`: scripts without devices, mailboxes and strands, opened; and why a call stops before it is done.
//! - `saving`, `files`: the first events, and the snapshot's file.
//! - `resuming`, `continuing`: programs that stand for their records, and what they tell from there.
//! - `originals_run`, `laws`, `joining`, `verdicts`: the laws on `run`, on `host`, on what is saved and gone on with, and on refusals.
#![tactic(auto)]

mod continuing;
mod files;
mod joining;
mod laws;
mod modules;
mod opening;
mod originals_run;
mod plain_scripts;
mod playing;
mod programs;
mod resuming;
mod saving;
mod staging;
mod stop;
mod strand_hosting;
mod strand_parting;
mod strand_planning;
mod strand_playing;
mod strand_printing;
mod strand_staging;
mod strand_starts;
mod strand_telling;
mod verdicts;
mod way;

pub use continuing::continue_script;
pub use joining::{joined_runs_are_of_originals, saved_snapshots_are_taken, saved_snapshots_suit};
pub use laws::hosts_are_of_originals;
pub use originals_run::{
    bounded_programs_are_whole, played_faults_are_counted, runs_are_of_originals,
};
pub use playing::play_script;
pub use saving::{SaveRequest, save_script};
pub use transform_command::run_transform;
pub use verdicts::{causes_are_one, played_is_not_refused};
pub use way::Way;
