//! The programs of a script, told up to an event, and the snapshot that is made there.

ghost use Rattle.std.specs.Prelude.{◌≡◌, ◌≢◌, ◌≤◌, ◌<◌, ◌^◌, All, IfOk, IsErrOf, List, OnOk, length, map, ℕ};
ghost use Rattle.std.specs.Result.{IfErr};
ghost use Rattle.vault_port.specs.Counts.{FailsOnce};
ghost use Rattle.std.specs.Bool.{OnFalse, OnTrue};
ghost use Rattle.wa_model.specs.declared.answers.Detach.{Detach as DetachValue};
ghost use Rattle.world_model.specs.World.{Program as WorldProgram};
ghost use Rattle.world_laws.specs.AloneLines.{Unbound};
ghost use Rattle.host_laws.specs.Supplies.{IsLent};
ghost use Rattle.many_host.specs.Standing.{InRange, LooksOut};
ghost use Rattle.snapshot_store.specs.Parts.{CountsFit};
ghost use Rattle.snapshot_store.specs.Views.{record_of, snapshot_of};
ghost use Rattle.world_hosting.specs.Counts.{counted};
ghost use Rattle.world_hosting.specs.Parted.{Begins, BeginsHosting};
ghost use Rattle.world_hosting.specs.Saved.{HasPrinted, Saves, SavesPart, SavesPartFrom, StopsAt};
ghost use Rattle.world_hosting.specs.Views.{AreStaged};
ghost use Rattle.world_hosting.specs.Worlds.{Part, world_programs};

use crate::hosting::{Hosting, host_staged};
use crate::staging::Staged;
use device_port::{Device, Devices};
use many_host::Host;
use snapshot_store::Snapshot;
use std::alloc::Global;
use transcript::{Names, put_line};
use vault_port::{PutFault, Sink};
use wa_model::Detach;

/// Tells up to sixteen programs for so many events, or to their ends where they have fewer, prints each line as it comes, without a last
/// line, and gives the snapshot of what is then held. A call of a bound import asks its device; before an event the devices are taken out
/// whose detaches have its number. After an error some first bytes of the lines were printed, and not all of them where the sink failed.
pub fn save_programs<S: Sink>(
    alloc: Global,
    out: &mut S,
    staged: Vec<Staged<'_>>,
    detaches: Vec<Detach>,
    devices: &mut Devices<'_>,
    most: u64,
) -> Result<Snapshot, PutFault>
    requires lent { IsLent }
    requires few { length staged.items ≤ 16 }
    requires staged { (parts : List Part) × AreStaged parts staged.items }
    requires some { 1 ≤ most }
    ensures same_list { devices.new.list.ghost_name ≡ devices.old.list.ghost_name }
    ensures told { (parts : List Part) → AreStaged parts staged.entry.items → All Unbound (world_programs parts)
        → IfOk result (λ s. Saves parts detaches.items most
        (counted seen (λ d. (⟦<dyn Device as Device>⟧ d.0).faults d.1) devices.old)
        (counted seen (λ d. (⟦<dyn Device as Device>⟧ d.0).faults d.1) devices.new)
        (S.taken out.old) (S.taken out.new) (snapshot_of s)) }
    ensures part { (parts : List Part) → AreStaged parts staged.entry.items
        → IfErr result (λ fault. SavesPart fault parts detaches.items most
        (counted seen (λ d. (⟦<dyn Device as Device>⟧ d.0).faults d.1) devices.old)
        (counted seen (λ d. (⟦<dyn Device as Device>⟧ d.0).faults d.1) devices.new)
        (S.taken out.old) (S.taken out.new)) }
    ensures few { IfOk result (λ s. length s.programs.items ≤ 16) }
    ensures counts { IfOk result (λ s. All CountsFit (map record_of s.programs.items)) }
    ensures fault { IsErrOf result PutFault.Fault → FailsOnce (S.faults out.old) (S.faults out.new) }
    ensures stays { result ≢ Err PutFault.Fault → S.faults out.new ≡ S.faults out.old }
    ensures faults { S.faults out.old ≤ S.faults out.new }
{
    match host_staged(alloc, staged, detaches) {
        Ok(hosting) => save_hosting(alloc, out, hosting, devices, most),
        Err(_) => Err(PutFault::Memory),
    }
}

// Tells the programs of a host for so many events, likewise.
fn save_hosting<S: Sink>(
    alloc: Global,
    out: &mut S,
    hosting: Hosting<'_>,
    devices: &mut Devices<'_>,
    most: u64,
) -> Result<Snapshot, PutFault>
    requires lent { IsLent }
    requires range { InRange hosting.host.turns }
    requires begins { BeginsHosting hosting.host hosting.names.items }
    requires below { hosting.host.turns.begun < most }
    ensures same_list { devices.new.list.ghost_name ≡ devices.old.list.ghost_name }
    ensures told { (parts : List Part) (detaches : List DetachValue) → Begins 0 (world_programs parts) parts detaches hosting.entry.host hosting.entry.names.items → All Unbound (world_programs parts)
        → IfOk result (λ s. Saves parts detaches most
        (counted seen (λ d. (⟦<dyn Device as Device>⟧ d.0).faults d.1) devices.old)
        (counted seen (λ d. (⟦<dyn Device as Device>⟧ d.0).faults d.1) devices.new)
        (S.taken out.old) (S.taken out.new) (snapshot_of s)) }
    ensures part { (parts : List Part) (detaches : List DetachValue) → Begins 0 (world_programs parts) parts detaches hosting.entry.host hosting.entry.names.items
        → IfErr result (λ fault. SavesPart fault parts detaches most
        (counted seen (λ d. (⟦<dyn Device as Device>⟧ d.0).faults d.1) devices.old)
        (counted seen (λ d. (⟦<dyn Device as Device>⟧ d.0).faults d.1) devices.new)
        (S.taken out.old) (S.taken out.new)) }
    ensures few { IfOk result (λ s. length s.programs.items ≤ 16) }
    ensures counts { IfOk result (λ s. All CountsFit (map record_of s.programs.items)) }
    ensures fault { IsErrOf result PutFault.Fault → FailsOnce (S.faults out.old) (S.faults out.new) }
    ensures stays { result ≢ Err PutFault.Fault → S.faults out.new ≡ S.faults out.old }
    ensures faults { S.faults out.old ≤ S.faults out.new }
{
    let Hosting { mut host, names } = hosting;
    let saved = save_lines(alloc, out, &mut host, &names, devices, most);
    drop(host);
    saved
}

// Prints the lines of so many events of a host, and makes the snapshot behind them.
fn save_lines<S: Sink>(
    alloc: Global,
    out: &mut S,
    host: &mut Host<'_>,
    names: &[Names],
    devices: &mut Devices<'_>,
    most: u64,
) -> Result<Snapshot, PutFault>
    requires lent { IsLent }
    requires range { InRange host.old.turns }
    requires begins { BeginsHosting host.old names.now }
    requires below { host.old.turns.begun < most }
    ensures same_list { devices.new.list.ghost_name ≡ devices.old.list.ghost_name }
    ensures told { (parts : List Part) (detaches : List DetachValue) → Begins 0 (world_programs parts) parts detaches host.old names.now → All Unbound (world_programs parts)
        → IfOk result (λ s. Saves parts detaches most
        (counted seen (λ d. (⟦<dyn Device as Device>⟧ d.0).faults d.1) devices.old)
        (counted seen (λ d. (⟦<dyn Device as Device>⟧ d.0).faults d.1) devices.new)
        (S.taken out.old) (S.taken out.new) (snapshot_of s)) }
    ensures part { (parts : List Part) (detaches : List DetachValue) → Begins 0 (world_programs parts) parts detaches host.old names.now
        → IfErr result (λ fault. SavesPart fault parts detaches most
        (counted seen (λ d. (⟦<dyn Device as Device>⟧ d.0).faults d.1) devices.old)
        (counted seen (λ d. (⟦<dyn Device as Device>⟧ d.0).faults d.1) devices.new)
        (S.taken out.old) (S.taken out.new)) }
    ensures few { IfOk result (λ s. length s.programs.items ≤ 16) }
    ensures counts { IfOk result (λ s. All CountsFit (map record_of s.programs.items)) }
    ensures fault { IsErrOf result PutFault.Fault → FailsOnce (S.faults out.old) (S.faults out.new) }
    ensures stays { result ≢ Err PutFault.Fault → S.faults out.new ≡ S.faults out.old }
    ensures faults { S.faults out.old ≤ S.faults out.new }
{
    if let Err(fault) = tell_events(alloc, out, host, names, devices, most) {
        return Err(fault);
    }
    match host.snapshot(alloc) {
        Ok(snapshot) => Ok(snapshot),
        Err(_) => Err(PutFault::Memory),
    }
}

// Prints the lines of so many events of a host, or of all where there are fewer.
fn tell_events<S: Sink>(
    alloc: Global,
    out: &mut S,
    host: &mut Host<'_>,
    names: &[Names],
    devices: &mut Devices<'_>,
    most: u64,
) -> Result<(), PutFault>
    requires lent { IsLent }
    requires range { InRange host.old.turns }
    requires begins { BeginsHosting host.old names.now }
    requires below { host.old.turns.begun < most }
    ensures range { OnOk result (InRange host.new.turns) }
    ensures stops { OnOk result (StopsAt most host.new) }
    ensures same_list { devices.new.list.ghost_name ≡ devices.old.list.ghost_name }
    ensures told { (earlier : ℕ) (programs : List WorldProgram) (parts : List Part) (detaches : List DetachValue)
        → Begins earlier programs parts detaches host.old names.now
        → OnOk result (HasPrinted earlier programs parts detaches
        (counted seen (λ d. (⟦<dyn Device as Device>⟧ d.0).faults d.1) devices.old) host.new
        (counted seen (λ d. (⟦<dyn Device as Device>⟧ d.0).faults d.1) devices.new)
        (S.taken out.old) (S.taken out.new)) }
    ensures part { (earlier : ℕ) (programs : List WorldProgram) (parts : List Part) (detaches : List DetachValue)
        → Begins earlier programs parts detaches host.old names.now
        → IfErr result (λ fault. SavesPartFrom fault earlier programs parts detaches most
        (counted seen (λ d. (⟦<dyn Device as Device>⟧ d.0).faults d.1) devices.old)
        (counted seen (λ d. (⟦<dyn Device as Device>⟧ d.0).faults d.1) devices.new)
        (S.taken out.old) (S.taken out.new)) }
    ensures fault { IsErrOf result PutFault.Fault → FailsOnce (S.faults out.old) (S.faults out.new) }
    ensures stays { result ≢ Err PutFault.Fault → S.faults out.new ≡ S.faults out.old }
    ensures faults { S.faults out.old ≤ S.faults out.new }
{
    'telling: for _told in 0..u64::MAX {
        let Ok(next) = host.next_without_mail(devices) else {
            return Err(PutFault::Memory);
        };
        let Some(line) = next else {
            return Ok(());
        };
        if let Err(fault) = put_line(alloc, out, names, &line) {
            return Err(fault);
        }
        if has_reached(host, most) {
            return Ok(());
        }
    }
    // Sixteen programs tell fewer lines.
    unreachable!()
}

// Whether so many events are over.
fn has_reached(host: &Host<'_>, most: u64) -> bool
    requires { InRange host.now.turns }
    ensures out { OnTrue result (LooksOut host.now.turns.shows.items host.now.turns.stage) }
    ensures most { OnTrue result (most ≤ host.now.turns.begun) }
    ensures fewer { OnFalse result (LooksOut host.now.turns.shows.items host.now.turns.stage → host.now.turns.begun < most) }
{
    host.is_between() && host.events() >= most
}
