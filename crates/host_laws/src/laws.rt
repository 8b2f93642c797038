//! Laws of stretches and of what is told. Each is the contract of a function that does nothing.

ghost use Rattle.host_laws.specs.Laws.{NothingToldAlone, NothingToldYet, OneMoreAlone, OneMoreMet, OneMoreTold, PlaceBegins, PlaceWhole, StoryIsWorld, StretchesCompose, ToldBegins, ToldWhole};

/// A stretch behind another is one.
pub fn stretches_compose()
    ensures { StretchesCompose }
{}

/// A program has told nothing at first, and one event more with each that it tells.
pub fn events_are_told_in_turn()
    ensures first { NothingToldYet }
    ensures next { OneMoreTold }
{}

/// What a program has told begins a story of it, and is the whole one at its end.
pub fn places_are_on_a_story()
    ensures begins { PlaceBegins }
    ensures whole { PlaceWhole }
{}

/// The calls of events that are told in a row meet what each event took.
pub fn calls_meet_in_turn()
    ensures { OneMoreMet }
{}

/// A program alone, without devices, has told nothing at first, and one event more with each that it tells.
pub fn events_are_told_alone()
    ensures first { NothingToldAlone }
    ensures next { OneMoreAlone }
{}

/// What a program alone has told begins a story of it, and is the whole one at its end.
pub fn told_events_are_a_story()
    ensures begins { ToldBegins }
    ensures whole { ToldWhole }
{}

/// The story of a program alone is a run of the protocol world.
pub fn stories_are_worlds()
    ensures { StoryIsWorld }
{}
