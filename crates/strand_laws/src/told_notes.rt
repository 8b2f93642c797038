//! Worlds of strands as they are told, note by note. Each is the contract of a function that does nothing.

ghost use Rattle.strand_laws.specs.StrandNotes.{BegunStrandsBegin, NothingTold, ToldStrandsBegin, TurnBegins, TurnEnds, TurnGoesOn};

/// Before the first turn nothing is told.
pub fn nothing_is_told()
    ensures { NothingTold }
{}

/// Behind whole turns the next begins, of the strand that is due next, once the devices of its number are taken out.
pub fn turn_begins()
    ensures { TurnBegins }
{}

/// With a note that ends no turn, whose call met what is there, the turn goes on.
pub fn turn_goes_on()
    ensures { TurnGoesOn }
{}

/// With one that does the turn is whole, and behind it comes what is shown, where it is the program's last.
pub fn turn_ends()
    ensures { TurnEnds }
{}

/// The lines of whole turns begin a run of the protocol world of strands, where what each program has told begins its story whatever
/// later calls meet.
pub fn told_strands_begin()
    ensures { ToldStrandsBegin }
{}

/// So do those with the beginning of the next turn.
pub fn begun_strands_begin()
    ensures { BegunStrandsBegin }
{}
