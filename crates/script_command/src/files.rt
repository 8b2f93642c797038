//! The file of a snapshot.

ghost use Rattle.std.specs.Prelude.{◌≡◌, ◌≤◌, All, IfOk, OnOk, length, map};
ghost use Rattle.std.specs.Result.{IfErr};
ghost use Rattle.vault_port.specs.Counts.{FailsAtMostOnce};
ghost use Rattle.snapshot_store.specs.Parts.{CountsFit};
ghost use Rattle.snapshot_store.specs.Views.{record_of, snapshot_of};
ghost use Rattle.script_command.specs.SnapshotViews.{Holding, IsText, IsUnwritten, NoSnapshot, NoText, Writes};

use crate::stop::{Stop, refused, unread};
use snapshot_store::{SnapFault, Snapshot, length, read, write};
use std::alloc::Global;
use transcript::RefusalKind;
use vault_port::{FetchFault, SaveFault, Vault, fetch_whole, save_whole};
use wa_types::Name;

/// A snapshot has at most so many bytes.
const MOST_BYTES: u64 = 268_435_456;

/// The file of a snapshot is read until one byte past its limit.
const FETCH_LIMIT: u64 = 268_435_457;

/// The snapshot in this file. No file changes.
pub(crate) fn fetch_snapshot<V: Vault>(
    alloc: Global,
    vault: &mut V,
    name: &str,
) -> Result<Snapshot, Stop>
    ensures snapshot { IfOk result (λ s. Holding (V.files vault.old) name.now (snapshot_of s)) }
    ensures none { IfErr result (λ stop. NoSnapshot (V.files vault.old) (V.fetch_faults vault.old) (V.fetch_faults vault.new) name.now stop) }
    ensures kept { V.files vault.new ≡ V.files vault.old }
    ensures once { FailsAtMostOnce (V.fetch_faults vault.old) (V.fetch_faults vault.new) }
    ensures stays { OnOk result (V.fetch_faults vault.new ≡ V.fetch_faults vault.old) }
    ensures faults { V.fetch_faults vault.old ≤ V.fetch_faults vault.new }
    ensures saves { V.save_faults vault.new ≡ V.save_faults vault.old }
{
    match fetch_whole(alloc, vault, name, FETCH_LIMIT) {
        Ok(mut bytes) => {
            // Fetching leaves room for up to twice as many.
            bytes.shrink_to_fit();
            snapshot_in(alloc, &bytes)
        }
        Err(FetchFault::Read) => Err(unread(alloc, name)),
        Err(FetchFault::Memory) => Err(Stop::Memory),
    }
}

// The snapshot that these bytes are.
fn snapshot_in(alloc: Global, bytes: &[u8]) -> Result<Snapshot, Stop>
    ensures snapshot { IfOk result (λ s. IsText bytes.now (snapshot_of s)) }
    ensures none { IfErr result (λ stop. NoText bytes.now stop) }
{
    if bytes.len() as u64 > MOST_BYTES {
        return Err(refused(RefusalKind::LimitSnapshot { found: FETCH_LIMIT }));
    }
    match read(alloc, bytes) {
        Ok(snapshot) => Ok(snapshot),
        Err(SnapFault::Memory) => Err(Stop::Memory),
        Err(SnapFault::Refused) => Err(refused(RefusalKind::SnapshotRefused)),
    }
}

/// Makes this file a snapshot, which isn't longer than it may be. No other file changes.
pub(crate) fn write_snapshot<V: Vault>(
    alloc: Global,
    vault: &mut V,
    snapshot: Snapshot,
    name: &str,
) -> Result<(), Stop>
    requires few { length snapshot.programs.items ≤ 16 }
    requires each { All CountsFit (map record_of snapshot.programs.items) }
    ensures writes { Writes (snapshot_of snapshot) name.now (V.files vault.old) (V.files vault.new) (V.save_faults vault.old) (V.save_faults vault.new) result }
    ensures faults { V.save_faults vault.old ≤ V.save_faults vault.new }
    ensures fetches { V.fetch_faults vault.new ≡ V.fetch_faults vault.old }
{
    let found = length(&snapshot);
    if found > MOST_BYTES {
        return Err(refused(RefusalKind::LimitSnapshot { found }));
    }
    let bytes = write(alloc, &snapshot)?;
    match save_whole(vault, name, &bytes) {
        Ok(()) => Ok(()),
        Err(SaveFault::Write) => Err(unwritten(alloc, name)),
        Err(SaveFault::Memory) => Err(Stop::Memory),
    }
}

// The stop of a file that couldn't be written.
fn unwritten(alloc: Global, name: &str) -> Stop
    ensures { IsUnwritten name.now result }
{
    match Name::new(alloc, name) {
        Ok(name) => refused(RefusalKind::WriteFault { name }),
        Err(_) => Stop::Memory,
    }
}
