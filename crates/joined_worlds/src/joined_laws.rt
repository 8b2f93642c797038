//! The law of worlds that are joined from two.

ghost use Rattle.joined_worlds.specs.JoinedOriginals.{JoinedWorldsOfOriginals};

/// The lines up to a save, and those from its snapshot on, are together those of a run of the originals.
pub fn joined_worlds_are_of_originals()
    ensures { JoinedWorldsOfOriginals }
{}
