//! Laws of worlds whose plans tell no list. Each is the contract of a function that does nothing.

ghost use Rattle.world_laws.specs.UntoldWorlds.{StoriesUntold, WorldsUntold};

/// A story of a rewritten module is one of its original, where that pauses at listed imports alone.
pub fn stories_are_untold()
    ensures { StoriesUntold }
{}

/// So are the lines and devices of a world.
pub fn worlds_are_untold()
    ensures { WorldsUntold }
{}
