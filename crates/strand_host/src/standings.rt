//! Laws of where a host stands in the woven run of a program's strands. Each is the contract of a function that does nothing.

ghost use Rattle.strand_host.specs.Standing.{BetweenIsOnStory, DueFits, FirstTurnBegins, LastMoveLeads, NextTurnBegins, NoTurnIsLeft, ProgramEnds, StepsRunOut, StrandEnds, TurnIsOnStory};
ghost use Rattle.strand_host.specs.Standing.{TurnMoves, TurnPauses, TurnTells, WholeIsOnStory};

/// The first strand's turn begins with what instantiation makes; behind a turn that of the strand that is due first does, and where none is
/// left all has been told.
pub fn turns_begin()
    ensures first { FirstTurnBegins }
    ensures next { NextTurnBegins }
    ensures none { NoTurnIsLeft }
{}

/// Moves leave a turn as it is, and so does a note that ends none.
pub fn turns_go_on()
    ensures moves { TurnMoves }
    ensures tells { TurnTells }
{}

/// A pause puts its strand off; an end is the strand's own, or the program's; and so is one by steps spent.
pub fn turns_end()
    ensures pauses { TurnPauses }
    ensures own { StrandEnds }
    ensures program { ProgramEnds }
    ensures spent { StepsRunOut }
{}

/// Wherever a host stands, what it has told begins a story of the program.
pub fn standings_are_on_story()
    ensures turn { TurnIsOnStory }
    ensures between { BetweenIsOnStory }
    ensures whole { WholeIsOnStory }
{}

/// Due ticks stay in range.
pub fn dues_fit()
    ensures { DueFits }
{}

/// Moves without a note and one that makes some are a stretch.
pub fn last_moves_lead()
    ensures { LastMoveLeads }
{}
