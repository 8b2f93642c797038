//! Laws of what calls have met where there are mailboxes: public functions that do nothing, whose contracts are the laws.

ghost use Rattle.pause_host.specs.Mailing.{NothingMetYet, OneMoreMet};

/// What the calls of a turn have met so far is what a world with mailboxes has them meet, for every promise that is kept.
pub fn calls_meet_as_in_worlds()
    ensures first { NothingMetYet }
    ensures more { OneMoreMet }
{}
