//! Laws of worlds with mailboxes that are told turn by turn.

ghost use Rattle.mail_laws.specs.Told.{AllToldIsWorld, BegunGoesOn, ToldGoesOn, ToldIsWorld};

/// Turns that were told are a world up to there, and a whole run once all programs have ended.
pub fn told_turns_are_worlds()
    ensures played { ToldIsWorld }
    ensures whole { AllToldIsWorld }
{}

/// A world that was told up to an event goes on to an end.
pub fn told_worlds_go_on()
    ensures { ToldGoesOn }
{}

/// So does one that was told up to an event and the beginning of the next turn.
pub fn begun_turns_go_on()
    ensures { BegunGoesOn }
{}
