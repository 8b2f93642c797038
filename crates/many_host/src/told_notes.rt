//! Laws of notes that are told one after another. Each is the contract of a function that does nothing.

ghost use Rattle.many_host.specs.ToldNotes.{BegunBegins, NothingTold, ToldBegins, ToldWhole, TurnBegins, TurnEnds, TurnGoesOn};

/// Nothing is told at first; a turn begins, goes on with each note, and ends.
pub fn notes_are_told_in_turn()
    ensures nothing { NothingTold }
    ensures begins { TurnBegins }
    ensures goes_on { TurnGoesOn }
    ensures ends { TurnEnds }
{}

/// What is told at any time begins a run of the world, and is a whole one once all programs have ended.
pub fn told_notes_are_of_a_world()
    ensures turns { ToldBegins }
    ensures begun { BegunBegins }
    ensures whole { ToldWhole }
{}
