//! A script that goes on from a snapshot.

ghost use Rattle.std.specs.Prelude.{◌≡◌, ◌≢◌, ◌≤◌, ◌<◌, ◌^◌, ℕ, All, List, Option, length, map};
ghost use Rattle.std.specs.Result.{IfErr};
ghost use Rattle.vault_port.specs.Files.{Files};
ghost use Rattle.host_laws.specs.Supplies.{IsLent};
ghost use Rattle.snapshot_store.specs.Snapshots.{ProgramRecord, Snapshot as PlainSnapshot};
ghost use Rattle.snapshot_store.specs.Views.{record_of, snapshot_of};
ghost use Rattle.transcript.specs.Refused.{CountsBy};
ghost use Rattle.script_command.specs.Playing.{detaches_in};
ghost use Rattle.script_command.specs.Views.{CanPlay};
ghost use Rattle.world_hosting.specs.Continued.{AreResumedAt, IsWhole};
ghost use Rattle.world_hosting.specs.Counts.{counted};
ghost use Rattle.world_hosting.specs.Worlds.{Part};
ghost use Rattle.script_command.specs.SnapshotAnswers.{HasOneEnd};
ghost use Rattle.script_command.specs.SnapshotCalls.{call, continues, output};
ghost use Rattle.script_command.specs.SnapshotEnds.{IsStatus};
ghost use Rattle.script_command.specs.PlainScripts.{Play};
ghost use Rattle.script_command.specs.SnapshotTelling.{HoldsSnapshot, programs_of};
ghost use Rattle.script_command.specs.SnapshotViews.{Does, Holding, IsPutStop, IsToldStop, Opens, status_by};

use crate::files::fetch_snapshot;
use crate::opening::Opened;
use crate::plain_scripts::open_plain;
use crate::programs::Programs;
use crate::resuming::resume_all;
use crate::stop::{Stop, stop_by, tell_stop, thaw_stop};
use device_port::{Device, Devices};
use snapshot_store::Snapshot;
use std::alloc::Global;
use vault_port::{Sink, Vault};
use wa_model::Detach;
use world_hosting::{Resumed, continue_programs};

/// `continue SCRIPT SNAP`: sets a script up as `run` does, puts its programs where the snapshot has them, plays them to their ends, and prints
/// the lines of that and the last line, with all events counted. Answers the status: 0 done; 3 to 7 for a program's module, by why it is
/// refused; 8 for a line of the script, one of a device, mailbox or strand too; 6 for its length, a seventeenth program or the snapshot's length too;
/// 9 want of memory; 10 for a file that could not be read; 12 for a sink that failed; 13 for a snapshot that does not fit. No file changes.
pub fn continue_script<V: Vault, S: Sink>(
    alloc: Global,
    vault: &mut V,
    out: &mut S,
    devices: &mut Devices<'_>,
    script: &str,
    snap: &str,
) -> u8
    requires lent { IsLent }
    ensures one_end { HasOneEnd continues (call script.now snap.now (V.files vault.old) (V.files vault.new)
        (V.fetch_faults vault.old) (V.fetch_faults vault.new) (V.save_faults vault.old) (V.save_faults vault.new)
        (counted seen (λ d. (⟦<dyn Device as Device>⟧ d.0).faults d.1) devices.old)
        (counted seen (λ d. (⟦<dyn Device as Device>⟧ d.0).faults d.1) devices.new))
        (output (S.taken out.old) (S.taken out.new) (S.faults out.old) (S.faults out.new)) result }
    ensures status { IsStatus continues result }
    ensures same_list { devices.new.list.ghost_name ≡ devices.old.list.ghost_name }
    ensures kept { V.files vault.new ≡ V.files vault.old }
    ensures counts { CountsBy result (V.fetch_faults vault.old) (V.fetch_faults vault.new) (V.save_faults vault.old) (V.save_faults vault.new)
        (S.faults out.old) (S.faults out.new) }
    ensures fetch_faults { V.fetch_faults vault.old ≤ V.fetch_faults vault.new }
    ensures save_faults { V.save_faults vault.new ≡ V.save_faults vault.old }
    ensures sink_faults { S.faults out.old ≤ S.faults out.new }
{
    match go_on(alloc, vault, out, devices, script, snap) {
        Ok(()) => 0,
        Err(stop) => tell_stop(alloc, out, stop),
    }
}

// Goes on from a snapshot, or tells why not.
fn go_on<V: Vault, S: Sink>(
    alloc: Global,
    vault: &mut V,
    out: &mut S,
    devices: &mut Devices<'_>,
    script: &str,
    snap: &str,
) -> Result<(), Stop>
    requires lent { IsLent }
    ensures does { Does continues (call script.now snap.now (V.files vault.old) (V.files vault.new)
        (V.fetch_faults vault.old) (V.fetch_faults vault.new) (V.save_faults vault.old) (V.save_faults vault.new)
        (counted seen (λ d. (⟦<dyn Device as Device>⟧ d.0).faults d.1) devices.old)
        (counted seen (λ d. (⟦<dyn Device as Device>⟧ d.0).faults d.1) devices.new))
        (output (S.taken out.old) (S.taken out.new) (S.faults out.old) (S.faults out.new)) result }
    ensures told { IfErr result IsToldStop }
    ensures counts { CountsBy (status_by result) (V.fetch_faults vault.old) (V.fetch_faults vault.new) (V.save_faults vault.old) (V.save_faults vault.new)
        (S.faults out.old) (S.faults out.new) }
    ensures same_list { devices.new.list.ghost_name ≡ devices.old.list.ghost_name }
    ensures kept { V.files vault.new ≡ V.files vault.old }
    ensures fetch_faults { V.fetch_faults vault.old ≤ V.fetch_faults vault.new }
    ensures save_faults { V.save_faults vault.new ≡ V.save_faults vault.old }
    ensures sink_faults { S.faults out.old ≤ S.faults out.new }
{
    match open_plain(alloc, vault, script) {
        Ok(opened) => continue_opened(alloc, vault, out, devices, opened, snap),
        Err(stop) => Err(stop),
    }
}

// Goes on with what was opened.
fn continue_opened<V: Vault, S: Sink>(
    alloc: Global,
    vault: &mut V,
    out: &mut S,
    devices: &mut Devices<'_>,
    opened: Opened,
    snap: &str,
) -> Result<(), Stop>
    requires lent { IsLent }
    requires plays { CanPlay opened }
    ensures does { (name : List ℕ) → Opens (V.files vault.old) name opened
        → Does continues (call name snap.now (V.files vault.old) (V.files vault.new)
        (V.fetch_faults vault.old) (V.fetch_faults vault.new) (V.save_faults vault.old) (V.save_faults vault.new)
        (counted seen (λ d. (⟦<dyn Device as Device>⟧ d.0).faults d.1) devices.old)
        (counted seen (λ d. (⟦<dyn Device as Device>⟧ d.0).faults d.1) devices.new))
        (output (S.taken out.old) (S.taken out.new) (S.faults out.old) (S.faults out.new)) result }
    ensures told { IfErr result IsToldStop }
    ensures counts { CountsBy (status_by result) (V.fetch_faults vault.old) (V.fetch_faults vault.new) (V.save_faults vault.old) (V.save_faults vault.new)
        (S.faults out.old) (S.faults out.new) }
    ensures same_list { devices.new.list.ghost_name ≡ devices.old.list.ghost_name }
    ensures kept { V.files vault.new ≡ V.files vault.old }
    ensures fetch_faults { V.fetch_faults vault.old ≤ V.fetch_faults vault.new }
    ensures save_faults { V.save_faults vault.new ≡ V.save_faults vault.old }
    ensures sink_faults { S.faults out.old ≤ S.faults out.new }
{
    match fetch_snapshot(alloc, vault, snap) {
        Ok(snapshot) => continue_from(alloc, out, devices, opened, snapshot),
        Err(stop) => Err(stop),
    }
}

// Goes on from this snapshot.
fn continue_from<S: Sink>(
    alloc: Global,
    out: &mut S,
    devices: &mut Devices<'_>,
    opened: Opened,
    snapshot: Snapshot,
) -> Result<(), Stop>
    requires lent { IsLent }
    requires plays { CanPlay opened }
    requires whole { All IsWhole (map record_of snapshot.programs.items) }
    ensures does { (files : Option Files) (name snap : List ℕ) (f f' s s' : ℕ) → Opens files name opened → Holding files snap (snapshot_of snapshot)
        → Does continues (call name snap files files f f' s s'
        (counted seen (λ d. (⟦<dyn Device as Device>⟧ d.0).faults d.1) devices.old)
        (counted seen (λ d. (⟦<dyn Device as Device>⟧ d.0).faults d.1) devices.new))
        (output (S.taken out.old) (S.taken out.new) (S.faults out.old) (S.faults out.new)) result }
    ensures told { IfErr result IsToldStop }
    ensures counts { (f f' s s' : ℕ) → f' ≡ f → s' ≡ s → CountsBy (status_by result) f f' s s' (S.faults out.old) (S.faults out.new) }
    ensures same_list { devices.new.list.ghost_name ≡ devices.old.list.ghost_name }
    ensures faults { S.faults out.old ≤ S.faults out.new }
{
    let Opened {
        programs,
        detaches,
        mailboxes,
        strand: _,
    } = opened;
    drop(mailboxes);
    let Programs { modules, planned } = programs;
    let events = snapshot.events;
    match resume_all(alloc, &modules, planned, snapshot) {
        Ok(resumed) => tell_rest(alloc, out, devices, resumed, events, detaches),
        Err(fault) => Err(thaw_stop(fault)),
    }
}

// Prints what is left of the programs.
fn tell_rest<S: Sink>(
    alloc: Global,
    out: &mut S,
    devices: &mut Devices<'_>,
    resumed: Vec<Resumed<'_>>,
    events: u64,
    detaches: Vec<Detach>,
) -> Result<(), Stop>
    requires lent { IsLent }
    requires few { length resumed.items ≤ 16 }
    requires events { events < 2 ^ 62 }
    requires resumed { (parts : List Part) × (records : List ProgramRecord) × AreResumedAt parts records resumed.items }
    ensures does { (files : Option Files) (name snap : List ℕ) (f f' s s' : ℕ) (play : Play files name) (shot : PlainSnapshot)
        → HoldsSnapshot files snap (programs_of play) shot → shot.events ≡ events → AreResumedAt play.run.parts shot.programs resumed.entry.items
        → detaches_in play.run.whole ≡ detaches.items
        → Does continues (call name snap files files f f' s s'
        (counted seen (λ d. (⟦<dyn Device as Device>⟧ d.0).faults d.1) devices.old)
        (counted seen (λ d. (⟦<dyn Device as Device>⟧ d.0).faults d.1) devices.new))
        (output (S.taken out.old) (S.taken out.new) (S.faults out.old) (S.faults out.new)) result }
    ensures told { IfErr result IsPutStop }
    ensures same_list { devices.new.list.ghost_name ≡ devices.old.list.ghost_name }
    ensures counts { (f f' s s' : ℕ) → f' ≡ f → s' ≡ s → CountsBy (status_by result) f f' s s' (S.faults out.old) (S.faults out.new) }
    ensures faults { S.faults out.old ≤ S.faults out.new }
{
    match continue_programs(alloc, out, resumed, events, detaches, devices) {
        Ok(()) => Ok(()),
        Err(fault) => Err(stop_by(fault)),
    }
}
