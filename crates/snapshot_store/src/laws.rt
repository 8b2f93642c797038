//! Laws of snapshots: public functions that do nothing, whose contracts are the laws.

ghost use Rattle.std.specs.Prelude.{◌≡◌, ℕ, List};
ghost use Rattle.snapshot_store.specs.Snapshots.{Snapshot, SnapText};

/// Bytes spell one snapshot at most.
pub fn one_snapshot_is_spelled()
    ensures { (bytes : List ℕ) (s t : Snapshot) → SnapText bytes s → SnapText bytes t → s ≡ t }
{}
