//! The programs of a script, told from a snapshot to their ends.

ghost use Rattle.std.specs.Prelude.{◌≡◌, ◌≢◌, ◌≤◌, ◌<◌, ◌^◌, IsErrOf, List, OnOk, length};
ghost use Rattle.std.specs.Result.{IfErr};
ghost use Rattle.vault_port.specs.Counts.{FailsOnce};
ghost use Rattle.host_laws.specs.Supplies.{IsLent};
ghost use Rattle.snapshot_store.specs.Snapshots.{ProgramRecord, Snapshot};
ghost use Rattle.world_hosting.specs.Continued.{AreResumedAt, Continues, ContinuesPart};
ghost use Rattle.world_hosting.specs.Counts.{counted};
ghost use Rattle.world_hosting.specs.Worlds.{Part};

use crate::hosting::host_resumed;
use crate::resuming::Resumed;
use crate::telling::tell_hosting;
use device_port::{Device, Devices};
use std::alloc::Global;
use vault_port::{PutFault, Sink};
use wa_model::Detach;

/// Tells up to sixteen programs from their records of a snapshot to their ends, behind so many events, and prints each line as it comes,
/// then the last line, which counts all events. Before an event the devices are taken out whose detaches have its number: none of those
/// that have the numbers of earlier events. After an error some first bytes of that were printed, and not all of them where the sink
/// failed.
pub fn continue_programs<S: Sink>(
    alloc: Global,
    out: &mut S,
    resumed: Vec<Resumed<'_>>,
    events: u64,
    detaches: Vec<Detach>,
    devices: &mut Devices<'_>,
) -> Result<(), PutFault>
    requires lent { IsLent }
    requires few { length resumed.items ≤ 16 }
    requires events { events < 2 ^ 62 }
    requires resumed { (parts : List Part) × (records : List ProgramRecord) × AreResumedAt parts records resumed.items }
    ensures same_list { devices.new.list.ghost_name ≡ devices.old.list.ghost_name }
    ensures told { (parts : List Part) (s : Snapshot) → s.events ≡ events → AreResumedAt parts s.programs resumed.entry.items
        → OnOk result (Continues parts s detaches.items
        (counted seen (λ d. (⟦<dyn Device as Device>⟧ d.0).faults d.1) devices.old)
        (counted seen (λ d. (⟦<dyn Device as Device>⟧ d.0).faults d.1) devices.new)
        (S.taken out.old) (S.taken out.new)) }
    ensures part { (parts : List Part) (s : Snapshot) → s.events ≡ events → AreResumedAt parts s.programs resumed.entry.items
        → IfErr result (λ fault. ContinuesPart fault parts s detaches.items
        (counted seen (λ d. (⟦<dyn Device as Device>⟧ d.0).faults d.1) devices.old)
        (counted seen (λ d. (⟦<dyn Device as Device>⟧ d.0).faults d.1) devices.new)
        (S.taken out.old) (S.taken out.new)) }
    ensures fault { IsErrOf result PutFault.Fault → FailsOnce (S.faults out.old) (S.faults out.new) }
    ensures stays { result ≢ Err PutFault.Fault → S.faults out.new ≡ S.faults out.old }
    ensures faults { S.faults out.old ≤ S.faults out.new }
{
    match host_resumed(alloc, resumed, events, detaches) {
        Ok(hosting) => tell_hosting(alloc, out, hosting, devices),
        Err(_) => Err(PutFault::Memory),
    }
}
