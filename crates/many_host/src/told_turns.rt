//! Laws of told turns. Each is the contract of a function that does nothing.

ghost use Rattle.many_host.specs.ToldTurns.{ToldIsWorld, AllToldIsWorld};

/// Turns that were told one after another are a world played up to that event.
pub fn told_turns_are_a_world()
    ensures { ToldIsWorld }
{}

/// Once all programs have ended, they are a whole run of the world.
pub fn all_told_is_a_world()
    ensures { AllToldIsWorld }
{}
