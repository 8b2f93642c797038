//! Laws of strands, entry calls that are suspended side by side in one instance; alone, as hosts of strands are to stand on it.
//!
//! Each strand has an area of its own, and all have one store: where one pauses or ends, the one that is due first goes on.
//! `specs/Woven.antt` says how machines of strands are woven into one, `specs/Strands.antt` what a program's strands do under the protocol
//! and with blocking imports, and what a rewritten module's owe its original's; `specs/EmittedStrands.antt` has the laws, and
//! `specs/Example.antt` three strands of a small module; `specs/OneStrand.antt` has that one strand runs as its plan does without strands.
//! `proofs/InStep.antt` has that two woven machines are in step where each strand of the one follows the other's and keeps what those that
//! wait stand on, and `proofs/Switch.antt` that the same strands begin their turns in both. What that asks of a strand comes from the
//! headline's laws of one plan: the original is run over a store with the other module's bytes in all areas, which makes no difference to
//! it (`proofs/Apart.antt`, `proofs/Middle.antt`, `proofs/Between.antt`).
//! `proofs/Paused.antt` has the first half of a pause, `proofs/Resumed.antt` the second over the store of the moment,
//! `proofs/EndsThere.antt` where a strand ends alone; `proofs/EachWorld.antt` and the files above it put all strands side by side, and
//! `proofs/StrandModules.antt` has that emitted modules meet what is asked.
//!
//! `specs/StrandWorld.antt` has worlds of strands: each strand is an actor, the strands of one program tell one woven run, and the world has the
//! order of all. `specs/Weaving.antt` has laws of weaving, and `specs/WorldExample.antt` scripts of two strands with the lines of their worlds.
//! `proofs/ByTurns.antt` has that woven strands tell by turns, `proofs/AllByTurns.antt` that those of a world do, and `proofs/OneRun.antt` that each
//! program's lines in a world are one run, by `proofs/WorldTurns.antt`, event by event.
//!
//! `specs/StrandOriginals.antt` has that a world of strands over rewritten modules has the lines of one over their originals:
//! `proofs/EndTogether.antt` that strands in step end together, `proofs/StrandStories.antt` what one program tells, and
//! `proofs/ActorRows.antt` that worlds whose actors print the same have the same events. `specs/StrandsMet.antt` has that strands tell the same with
//! the outcomes alone that their calls meet. `proofs/ThreeToTheEnd.antt` has three strands over whatever is emitted of a small module, and
//! the lines of their world.
//!
//! `specs/ToldStrands.antt` has worlds of strands as they are told, turn by turn, when no strand's story is known beforehand: `proofs/ToldStrands.antt`
//! has that a turn that is told is an event of the world, `proofs/ToldWorlds.antt` that all are, and `proofs/ToldGoesOn.antt` that what was told goes on
//! to an end, by `proofs/NextTurn.antt`, one turn whose calls meet answer lines and devices that fail.
//! `specs/StrandNotes.antt` has the same note by note.
#![tactic(auto)]

mod emitted_strands;
mod one_strand;
mod original_worlds;
mod told_notes;
mod told_worlds;
mod world_strands;

pub use emitted_strands::{strand_pauses_at_numbers, strands_of_emitted, three_strands_take_turns};
pub use one_strand::{one_strand_is_expected, one_strand_runs_as_its_plan};
pub use original_worlds::{
    bounded_strands_end, bounded_worlds_are_held, compared_strands_are_orderly,
    emitted_strands_stand_in, emitted_world_has_its_lines, strand_stories_are_of_met,
    strand_stories_are_of_originals, strand_worlds_are_of_originals, three_strands_end,
};
pub use told_notes::{
    begun_strands_begin, nothing_is_told, told_strands_begin, turn_begins, turn_ends, turn_goes_on,
};
pub use told_worlds::{
    all_told_strands_are_a_world, strand_worlds_end, told_strands_are_a_world, told_strands_go_on,
};
pub use world_strands::{
    held_programs_tell_one_run, narrow_area_ends_the_program, strands_go_by_turns,
    strands_share_a_store, stretches_are_woven, strung_programs_tell_one_run, trap_ends_its_strand,
    wrong_readings_are_refused,
};
