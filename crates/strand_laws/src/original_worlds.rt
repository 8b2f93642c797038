//! Worlds of strands beside those of their originals. Each is the contract of a function that does nothing.

ghost use Rattle.strand_laws.specs.StrandOriginals.{BoundedStrandsEnd, BoundedWorldsAreHeld, ComparedAreOrderly, EmittedAreRewritten, StrandStoriesOfOriginals, StrandWorldsOfOriginals};
ghost use Rattle.strand_laws.specs.StrandsMet.{StrandStoriesOfMet};
ghost use Rattle.strand_laws.specs.WorldExample.{EmittedTellsItsLines, ThreeTellAll};

/// What is emitted has its original's imports, and its strands behave like the original's: it may stand in for it in a world of strands.
pub fn emitted_strands_stand_in()
    ensures { EmittedAreRewritten }
{}

/// Where `call_indirect` isn't ignored, strands that are compared run orderly.
pub fn compared_strands_are_orderly()
    ensures { ComparedAreOrderly }
{}

/// What the strands of a rewritten module tell in the protocol world, those of its original can tell in the blocking one, with stores
/// that agree outside all areas; also where the steps are spent.
pub fn strand_stories_are_of_originals()
    ensures { StrandStoriesOfOriginals }
{}

/// What a program's strands tell in the protocol world they tell with the outcomes that their calls meet, whatever stands behind these.
pub fn strand_stories_are_of_met()
    ensures { StrandStoriesOfMet }
{}

/// A run of the protocol world of strands over rewritten modules has the lines and devices of a run of the blocking world of strands over
/// their originals, where those run orderly with the outcomes that were met.
pub fn strand_worlds_are_of_originals()
    ensures { StrandWorldsOfOriginals }
{}

/// Where the original's strands end, and the bound of what that costs is within the steps, those of the rewritten module tell all their
/// events: their steps aren't spent.
pub fn bounded_strands_end()
    ensures { BoundedStrandsEnd }
{}

/// Where that is so of each original, a run of the blocking world of strands has the lines and devices of a run of the protocol world over
/// the rewritten modules.
pub fn bounded_worlds_are_held()
    ensures { BoundedWorldsAreHeld }
{}

/// Three strands over whatever is emitted of a small module, with as many steps as the bound has, tell in a world all that the module's own
/// strands tell, each to its end.
pub fn three_strands_end()
    ensures { ThreeTellAll }
{}

/// So the protocol world of these strands has a run, whose lines are those of the original's world, to the end: their ticks, and what each
/// strand tells.
pub fn emitted_world_has_its_lines()
    ensures { EmittedTellsItsLines }
{}
