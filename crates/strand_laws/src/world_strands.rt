//! Worlds of strands. Each is the contract of a function that does nothing.

ghost use Rattle.strand_laws.specs.Weaving.{AllGoByTurns, AllStretchesAreWoven, HeldProgramsTellOneRun, StrungProgramsTellOneRun};
ghost use Rattle.strand_laws.specs.WorldExample.{DividingTellsItsLines, NarrowTellsItsLines, StrandReadings, SummingTellsItsLines};

/// A stretch of the strand that goes on, in which no turn ends, is one of the woven machine at its cost, under the protocol and with
/// blocking imports; the other strands stay.
pub fn stretches_are_woven()
    ensures { AllStretchesAreWoven }
{}

/// What a program's strands tell in either world goes by turns, each of the strand that is due first among those that haven't ended, up to
/// its pause or its end; also where their steps are spent.
pub fn strands_go_by_turns()
    ensures { AllGoByTurns }
{}

/// The lines of a program, picked out of a protocol world's in their order, are one woven run of its strands, whatever the other programs do,
/// with what is shown behind its last end.
pub fn held_programs_tell_one_run()
    ensures { HeldProgramsTellOneRun }
{}

/// So are those of an original, picked out of a blocking world's.
pub fn strung_programs_tell_one_run()
    ensures { StrungProgramsTellOneRun }
{}

/// Two strands over one store: the second is answered first, and the first one goes on over what that has left, with the lines of the
/// world to the end, their ticks, and what is shown behind them.
pub fn strands_share_a_store()
    ensures { SummingTellsItsLines }
{}

/// A trap ends its strand alone, and the other goes on over the memory that both have grown.
pub fn trap_ends_its_strand()
    ensures { DividingTellsItsLines }
{}

/// An unwind that traps ends the program, and a strand that waits tells nothing more.
pub fn narrow_area_ends_the_program()
    ensures { NarrowTellsItsLines }
{}

/// A strand doesn't go on over the globals of its pause, and a trap isn't the program's end.
pub fn wrong_readings_are_refused()
    ensures { StrandReadings }
{}
