//! Laws of worlds with mailboxes, and what such worlds are; alone, as the hosts are to be restated over them.
//!
//! An import that is bound to a mailbox sends an i32 or receives one. A receive at an empty mailbox is a pause that waits: the program
//! parks, and takes no turn until another sends it a value. One to which nobody sends ends there, `Stalled`.
//!
//! What a program will be sent is promised (`specs/Mailboxes.antt`): a receive at an empty mailbox takes some value, the mailbox keeps it
//! beside the number of the program that waits, and a send asks that what it sends is what was promised. The story of a program that waits
//! for good is cut at its pause, and the world ends it there (`specs/MailWorld.antt`).
//!
//! A host can't promise. So worlds are told forwards too, without values (`specs/Told.antt`), and turns that were told are a world. No world
//! is stuck (`specs/Played.antt`). What a receive is answered isn't read before it is given (`specs/Unread.antt`). A line tells
//! `Stalled` exactly where no program is ready (`specs/Stalling.antt`). The world of rewritten modules is that of their originals
//! (`specs/MailOriginals.antt`), and none of these goes astray (`specs/Astray.antt`). Without mailboxes the runs of both worlds are those of
//! `world_model` (`specs/WithoutBoxes.antt`).
//!
//! The journals of the devices at a run's end, the places at which its lines tell that a device failed, and the values of a wrong type that they
//! tell, with their places, fix all its lines; a world whose imports are bound to mailboxes alone has one run, but for such values (`specs/Replays.antt`). The outcomes of
//! calls fix them always (`specs/Determined.antt`). The devices at the end are those of the start, but for those that were taken out
//! (`specs/Kept.antt`). A program without bound imports has the lines that it would have alone (`specs/AloneLines.antt`).
//!
//! - `event_laws`, `ongoing_laws`: worlds played up to an event, and that they go on.
//! - `told_laws`, `stalled_laws`, `answer_laws`: worlds that are told, who stalls, answers that aren't read yet.
//! - `original_laws`, `astray_laws`: worlds beside those of originals.
//! - `replay_laws`, `kept_laws`, `alone_laws`: what fixes lines, the devices at the end, a program without bound imports.
//! - `bare_laws`, `waiting_laws`: worlds without mailboxes; the runs of a program that waits for good, and of one that is sent values.
#![tactic(auto)]

mod alone_laws;
mod answer_laws;
mod astray_laws;
mod bare_laws;
mod event_laws;
mod kept_laws;
mod ongoing_laws;
mod original_laws;
mod replay_laws;
mod stalled_laws;
mod told_laws;
mod waiting_laws;

pub use alone_laws::own_lines_with_mail_are_those_alone;
pub use answer_laws::answers_are_unread;
pub use astray_laws::none_with_mail_goes_astray;
pub use bare_laws::{
    bare_events_are_those_of_worlds, bare_worlds_are_worlds, none_waits_without_boxes,
};
pub use event_laws::runs_with_mail_are_played;
pub use kept_laws::devices_with_mail_are_kept;
pub use ongoing_laws::{each_world_with_mail_ends, worlds_with_mail_go_on};
pub use original_laws::{cut_stories_are_of_originals, worlds_with_mail_are_of_originals};
pub use replay_laws::{
    journals_with_mail_fix_lines, mailboxes_fix_lines, met_outcomes_with_mail_fix_lines,
};
pub use stalled_laws::stalls_come_last;
pub use told_laws::{begun_turns_go_on, told_turns_are_worlds, told_worlds_go_on};
pub use waiting_laws::{one_is_sent_values, one_waits_for_good};
