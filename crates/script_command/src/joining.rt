//! Laws of what is saved and gone on with. Each is the contract of a function that does nothing.

ghost use Rattle.script_command.specs.JoinedRuns.{JoinedRunsAreOfOriginals};
ghost use Rattle.script_command.specs.SavedSnapshots.{SavedSnapshotsAreTaken, SavedSnapshotsSuit};

/// The text of a save and that of a continue from its snapshot are together the transcript of one run of the originals.
pub fn joined_runs_are_of_originals()
    ensures { JoinedRunsAreOfOriginals }
{}

/// A snapshot that was saved suits the programs of its script.
pub fn saved_snapshots_suit()
    ensures { SavedSnapshotsSuit }
{}

/// What was saved can be gone on with over the same script and modules: no continue is refused for its snapshot.
pub fn saved_snapshots_are_taken()
    ensures { SavedSnapshotsAreTaken }
{}
