//! Laws that worlds go on to an end.

ghost use Rattle.world_laws.specs.GoingOn.{EachWorldEnds, WorldsGoOn};

/// A world that is played up to an event can be played on to an end.
pub fn worlds_go_on()
    ensures { WorldsGoOn }
{}

/// There is a run that ends.
pub fn each_world_ends()
    ensures { EachWorldEnds }
{}
