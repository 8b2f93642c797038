//! Laws of worlds with mailboxes that are played up to an event.

ghost use Rattle.mail_laws.specs.Played.{NextEvent, NoEvent, PlayedIsWhole, WholeIsPlayed};

/// A run up to an event goes on by the next one, behind which each program without notes has told its end or waits; where all programs
/// have ended it is a whole run, and each whole run is such.
pub fn runs_with_mail_are_played()
    ensures first { NoEvent }
    ensures next { NextEvent }
    ensures whole { PlayedIsWhole }
    ensures played { WholeIsPlayed }
{}
