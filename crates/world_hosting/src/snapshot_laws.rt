//! The law of what is saved. It is the contract of a function that does nothing.

ghost use Rattle.world_hosting.specs.SnapshotsSuit.{SnapshotsSuit};

/// A snapshot of programs that are set up suits them.
pub fn snapshots_suit()
    ensures { SnapshotsSuit }
{}
