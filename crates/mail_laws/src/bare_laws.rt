//! Laws of worlds without mailboxes.

ghost use Rattle.mail_laws.specs.WithoutBoxes.{BlockingWithoutBoxes, EventsAreUnboxed, NoneWaits, UnboxedEventsAre, WorldsWithoutBoxes};

/// Every event is a turn, and no program waits.
pub fn none_waits_without_boxes()
    ensures { NoneWaits }
{}

/// The events are those of a world without mailboxes, and its events are such.
pub fn bare_events_are_those_of_worlds()
    ensures forth { EventsAreUnboxed }
    ensures back { UnboxedEventsAre }
{}

/// And so are the runs, both ways, of the protocol world and of the blocking world.
pub fn bare_worlds_are_worlds()
    ensures protocol { WorldsWithoutBoxes }
    ensures blocking { BlockingWithoutBoxes }
{}
