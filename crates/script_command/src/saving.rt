//! A script, played for so many events and saved.

ghost use Rattle.std.specs.Prelude.{◌≡◌, ◌≢◌, ◌≤◌, ℕ, All, IfOk, List, Option, length, map};
ghost use Rattle.std.specs.Result.{IfErr};
ghost use Rattle.vault_port.specs.Counts.{FailsAtMostOnce};
ghost use Rattle.vault_port.specs.Files.{Files};
ghost use Rattle.host_laws.specs.Supplies.{IsLent};
ghost use Rattle.snapshot_store.specs.Parts.{CountsFit};
ghost use Rattle.snapshot_store.specs.Views.{record_of, snapshot_of};
ghost use Rattle.transcript.specs.Refused.{CountsBy};
ghost use Rattle.script_command.specs.Playing.{detaches_in};
ghost use Rattle.script_command.specs.Views.{CanPlay};
ghost use Rattle.world_hosting.specs.Counts.{counted};
ghost use Rattle.world_hosting.specs.Saved.{Saves};
ghost use Rattle.world_hosting.specs.Views.{AreStaged};
ghost use Rattle.world_hosting.specs.Worlds.{Part, world_programs};
ghost use Rattle.world_laws.specs.AloneLines.{Unbound};
ghost use Rattle.script_command.specs.SnapshotAnswers.{HasOneEnd};
ghost use Rattle.script_command.specs.SnapshotCalls.{call, output, saves};
ghost use Rattle.script_command.specs.SnapshotEnds.{IsStatus};
ghost use Rattle.script_command.specs.PlainScripts.{Play};
ghost use Rattle.script_command.specs.SnapshotViews.{Does, IsPutStop, IsToldStop, Opens, Stops, status_by};

use crate::files::write_snapshot;
use crate::opening::Opened;
use crate::plain_scripts::open_plain;
use crate::programs::Programs;
use crate::staging::stage_all;
use crate::stop::{Stop, stop_by, tell_stop};
use device_port::{Device, Devices};
use snapshot_store::Snapshot;
use std::alloc::Global;
use vault_port::{Sink, Vault};
use wa_model::Detach;
use world_hosting::{Staged, save_programs};

/// What is saved: a script, behind so many events, and the file of the snapshot.
#[derive(Clone, Copy)]
pub struct SaveRequest<'a> {
    pub script: &'a str,
    /// From 1 on.
    pub events: u64,
    pub snap: &'a str,
}

/// `save SCRIPT E SNAP`: sets a script up as `run` does, plays its first events, or all where there are fewer, and prints their lines; then
/// writes the snapshot of what stands behind them. Answers the status: 0 done; 3 to 7 for a program's module, by why it is refused; 8 for a
/// line of the script, one of a device, mailbox or strand too; 6 for its length, a seventeenth program or the snapshot's length too; 9 want of memory;
/// 10 for a file that could not be read; 11 for the snapshot's, where it could not be written; 12 for a sink that failed.
pub fn save_script<V: Vault, S: Sink>(
    alloc: Global,
    vault: &mut V,
    out: &mut S,
    devices: &mut Devices<'_>,
    request: SaveRequest<'_>,
) -> u8
    requires lent { IsLent }
    requires some { 1 ≤ request.events }
    ensures one_end { HasOneEnd (saves request.entry.events) (call request.entry.script.now request.entry.snap.now (V.files vault.old) (V.files vault.new)
        (V.fetch_faults vault.old) (V.fetch_faults vault.new) (V.save_faults vault.old) (V.save_faults vault.new)
        (counted seen (λ d. (⟦<dyn Device as Device>⟧ d.0).faults d.1) devices.old)
        (counted seen (λ d. (⟦<dyn Device as Device>⟧ d.0).faults d.1) devices.new))
        (output (S.taken out.old) (S.taken out.new) (S.faults out.old) (S.faults out.new)) result }
    ensures status { IsStatus (saves request.entry.events) result }
    ensures same_list { devices.new.list.ghost_name ≡ devices.old.list.ghost_name }
    ensures counts { CountsBy result (V.fetch_faults vault.old) (V.fetch_faults vault.new) (V.save_faults vault.old) (V.save_faults vault.new)
        (S.faults out.old) (S.faults out.new) }
    ensures fetch_faults { V.fetch_faults vault.old ≤ V.fetch_faults vault.new }
    ensures save_faults { V.save_faults vault.old ≤ V.save_faults vault.new }
    ensures sink_faults { S.faults out.old ≤ S.faults out.new }
{
    match save(alloc, vault, out, devices, request) {
        Ok(()) => 0,
        Err(stop) => tell_stop(alloc, out, stop),
    }
}

// Saves a script, or tells why not.
fn save<V: Vault, S: Sink>(
    alloc: Global,
    vault: &mut V,
    out: &mut S,
    devices: &mut Devices<'_>,
    request: SaveRequest<'_>,
) -> Result<(), Stop>
    requires lent { IsLent }
    requires some { 1 ≤ request.events }
    ensures does { Does (saves request.entry.events) (call request.entry.script.now request.entry.snap.now (V.files vault.old) (V.files vault.new)
        (V.fetch_faults vault.old) (V.fetch_faults vault.new) (V.save_faults vault.old) (V.save_faults vault.new)
        (counted seen (λ d. (⟦<dyn Device as Device>⟧ d.0).faults d.1) devices.old)
        (counted seen (λ d. (⟦<dyn Device as Device>⟧ d.0).faults d.1) devices.new))
        (output (S.taken out.old) (S.taken out.new) (S.faults out.old) (S.faults out.new)) result }
    ensures told { IfErr result IsToldStop }
    ensures counts { CountsBy (status_by result) (V.fetch_faults vault.old) (V.fetch_faults vault.new) (V.save_faults vault.old) (V.save_faults vault.new)
        (S.faults out.old) (S.faults out.new) }
    ensures same_list { devices.new.list.ghost_name ≡ devices.old.list.ghost_name }
    ensures fetch_faults { V.fetch_faults vault.old ≤ V.fetch_faults vault.new }
    ensures save_faults { V.save_faults vault.old ≤ V.save_faults vault.new }
    ensures sink_faults { S.faults out.old ≤ S.faults out.new }
{
    match open_plain(alloc, vault, request.script) {
        Ok(opened) => save_opened(alloc, vault, out, devices, opened, request),
        Err(stop) => Err(stop),
    }
}

// Saves what was opened.
fn save_opened<V: Vault, S: Sink>(
    alloc: Global,
    vault: &mut V,
    out: &mut S,
    devices: &mut Devices<'_>,
    opened: Opened,
    request: SaveRequest<'_>,
) -> Result<(), Stop>
    requires lent { IsLent }
    requires some { 1 ≤ request.events }
    requires plays { CanPlay opened }
    ensures does { (f f' : ℕ) → Opens (V.files vault.old) request.entry.script.now opened
        → Does (saves request.entry.events) (call request.entry.script.now request.entry.snap.now (V.files vault.old) (V.files vault.new)
        f f' (V.save_faults vault.old) (V.save_faults vault.new)
        (counted seen (λ d. (⟦<dyn Device as Device>⟧ d.0).faults d.1) devices.old)
        (counted seen (λ d. (⟦<dyn Device as Device>⟧ d.0).faults d.1) devices.new))
        (output (S.taken out.old) (S.taken out.new) (S.faults out.old) (S.faults out.new)) result }
    ensures told { IfErr result IsToldStop }
    ensures counts { (f f' : ℕ) → f' ≡ f → CountsBy (status_by result) f f' (V.save_faults vault.old) (V.save_faults vault.new) (S.faults out.old) (S.faults out.new) }
    ensures same_list { devices.new.list.ghost_name ≡ devices.old.list.ghost_name }
    ensures fetches { V.fetch_faults vault.new ≡ V.fetch_faults vault.old }
    ensures save_faults { V.save_faults vault.old ≤ V.save_faults vault.new }
    ensures sink_faults { S.faults out.old ≤ S.faults out.new }
{
    match play_to(alloc, out, devices, opened, request.events) {
        Ok(snapshot) => write_snapshot(alloc, vault, snapshot, request.snap),
        Err(stop) => Err(stop),
    }
}

// The first events of what was opened, and the snapshot of what stands behind them.
fn play_to<S: Sink>(
    alloc: Global,
    out: &mut S,
    devices: &mut Devices<'_>,
    opened: Opened,
    most: u64,
) -> Result<Snapshot, Stop>
    requires lent { IsLent }
    requires some { 1 ≤ most }
    requires plays { CanPlay opened }
    ensures played { (files : Option Files) (name : List ℕ) (opens : Opens files name opened)
        → IfOk result (λ s. Saves opens.play.run.parts (detaches_in opens.play.run.whole) most
        (counted seen (λ d. (⟦<dyn Device as Device>⟧ d.0).faults d.1) devices.old)
        (counted seen (λ d. (⟦<dyn Device as Device>⟧ d.0).faults d.1) devices.new)
        (S.taken out.old) (S.taken out.new) (snapshot_of s)) }
    ensures part { (files : Option Files) (name snap : List ℕ) (f f' s s' : ℕ) → Opens files name opened
        → IfErr result (Stops (saves most) (call name snap files files f f' s s'
        (counted seen (λ d. (⟦<dyn Device as Device>⟧ d.0).faults d.1) devices.old)
        (counted seen (λ d. (⟦<dyn Device as Device>⟧ d.0).faults d.1) devices.new))
        (output (S.taken out.old) (S.taken out.new) (S.faults out.old) (S.faults out.new))) }
    ensures put { IfErr result IsPutStop }
    ensures once { FailsAtMostOnce (S.faults out.old) (S.faults out.new) }
    ensures few { IfOk result (λ s. length s.programs.items ≤ 16) }
    ensures each { IfOk result (λ s. All CountsFit (map record_of s.programs.items)) }
    ensures same_list { devices.new.list.ghost_name ≡ devices.old.list.ghost_name }
    ensures stays { result ≢ Err Stop.Sink → S.faults out.new ≡ S.faults out.old }
    ensures faults { S.faults out.old ≤ S.faults out.new }
{
    let Opened {
        programs,
        detaches,
        mailboxes,
        strand: _,
    } = opened;
    drop(mailboxes);
    let Programs { modules, planned } = programs;
    match stage_all(alloc, &modules, planned) {
        Ok(staged) => play_staged(alloc, out, devices, staged, detaches, most),
        Err(_) => Err(Stop::Memory),
    }
}

// The first events of these programs, and the snapshot.
fn play_staged<S: Sink>(
    alloc: Global,
    out: &mut S,
    devices: &mut Devices<'_>,
    staged: Vec<Staged<'_>>,
    detaches: Vec<Detach>,
    most: u64,
) -> Result<Snapshot, Stop>
    requires lent { IsLent }
    requires some { 1 ≤ most }
    requires few { length staged.items ≤ 16 }
    requires staged { (parts : List Part) × AreStaged parts staged.items }
    ensures played { (parts : List Part) → AreStaged parts staged.entry.items → All Unbound (world_programs parts)
        → IfOk result (λ s. Saves parts detaches.items most
        (counted seen (λ d. (⟦<dyn Device as Device>⟧ d.0).faults d.1) devices.old)
        (counted seen (λ d. (⟦<dyn Device as Device>⟧ d.0).faults d.1) devices.new)
        (S.taken out.old) (S.taken out.new) (snapshot_of s)) }
    ensures part { (files : Option Files) (name snap : List ℕ) (f f' s s' : ℕ) (play : Play files name)
        → AreStaged play.run.parts staged.entry.items → detaches_in play.run.whole ≡ detaches.items
        → IfErr result (Stops (saves most) (call name snap files files f f' s s'
        (counted seen (λ d. (⟦<dyn Device as Device>⟧ d.0).faults d.1) devices.old)
        (counted seen (λ d. (⟦<dyn Device as Device>⟧ d.0).faults d.1) devices.new))
        (output (S.taken out.old) (S.taken out.new) (S.faults out.old) (S.faults out.new))) }
    ensures put { IfErr result IsPutStop }
    ensures once { FailsAtMostOnce (S.faults out.old) (S.faults out.new) }
    ensures few { IfOk result (λ s. length s.programs.items ≤ 16) }
    ensures each { IfOk result (λ s. All CountsFit (map record_of s.programs.items)) }
    ensures same_list { devices.new.list.ghost_name ≡ devices.old.list.ghost_name }
    ensures stays { result ≢ Err Stop.Sink → S.faults out.new ≡ S.faults out.old }
    ensures faults { S.faults out.old ≤ S.faults out.new }
{
    match save_programs(alloc, out, staged, detaches, devices, most) {
        Ok(snapshot) => Ok(snapshot),
        Err(fault) => Err(stop_by(fault)),
    }
}
