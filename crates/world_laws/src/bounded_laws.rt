//! Laws of how programs end.

ghost use Rattle.world_laws.specs.Bounded.{BoundedAreWhole, NoneAstray};

/// A program whose bound is within its steps has the story that is expected of it, up to its end.
pub fn bounded_stories_are_whole()
    ensures { BoundedAreWhole }
{}

/// No rewritten module that runs orderly breaks the host's protocol, or traps while it rewinds.
pub fn none_goes_astray()
    ensures { NoneAstray }
{}
