//! The laws.

ghost use Rattle.script_command.specs.Laws.{CausesAreOne, PlayedIsNotRefused};

/// A script whose programs are all set up isn't refused.
pub fn played_is_not_refused()
    ensures { PlayedIsNotRefused }
{}

/// A script that is refused is refused for one cause.
pub fn causes_are_one()
    ensures { CausesAreOne }
{}
