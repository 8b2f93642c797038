//! Laws of worlds that go on from a snapshot.

ghost use Rattle.world_laws.specs.Snapshots.{JoinedLinesAreOne, RecordsGoOn, WorldsJoin};

/// What a program has still to tell is what it tells that begins as its record has it.
pub fn records_go_on()
    ensures { RecordsGoOn }
{}

/// A world that is played up to an event, and one that goes on from its snapshot, are one world.
pub fn worlds_join()
    ensures { WorldsJoin }
{}

/// Its lines are those of every run without a save, where no import is bound to a device.
pub fn joined_lines_are_one()
    ensures { JoinedLinesAreOne }
{}
