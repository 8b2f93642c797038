//! The programs of a script, told to their ends.

ghost use Rattle.std.specs.Prelude.{◌≡◌, ◌≢◌, ◌≤◌, IsErrOf, List, OnOk, length, ℕ};
ghost use Rattle.std.specs.Result.{IfErr};
ghost use Rattle.vault_port.specs.Counts.{FailsOnce};
ghost use Rattle.wa_model.specs.declared.answers.Detach.{Detach as DetachValue};
ghost use Rattle.world_model.specs.World.{Program as WorldProgram};
ghost use Rattle.host_laws.specs.Supplies.{IsLent};
ghost use Rattle.many_host.specs.Standing.{InRange};
ghost use Rattle.world_hosting.specs.Counts.{counted};
ghost use Rattle.world_hosting.specs.Parted.{Begins, BeginsHosting};
ghost use Rattle.world_hosting.specs.Views.{AreStaged};
ghost use Rattle.world_hosting.specs.Worlds.{Part, Tells, TellsPart, TellsPartFrom, TellsWorldFrom};

use crate::hosting::{Hosting, host_staged};
use crate::staging::Staged;
use device_port::{Device, Devices};
use many_host::Host;
use std::alloc::Global;
use transcript::{Names, put_last, put_line};
use vault_port::{PutFault, Sink};
use wa_model::Detach;

/// Tells up to sixteen programs to their ends and prints each line as it comes, then the last line. A call of a bound import asks its
/// device; before an event the devices are taken out whose detaches have its number. After an error some first bytes of that were
/// printed, and not all of them where the sink failed.
pub fn host_programs<S: Sink>(
    alloc: Global,
    out: &mut S,
    staged: Vec<Staged<'_>>,
    detaches: Vec<Detach>,
    devices: &mut Devices<'_>,
) -> Result<(), PutFault>
    requires lent { IsLent }
    requires few { length staged.items ≤ 16 }
    requires staged { (parts : List Part) × AreStaged parts staged.items }
    ensures same_list { devices.new.list.ghost_name ≡ devices.old.list.ghost_name }
    ensures told { (parts : List Part) → AreStaged parts staged.entry.items
        → OnOk result (Tells parts detaches.items
        (counted seen (λ d. (⟦<dyn Device as Device>⟧ d.0).faults d.1) devices.old)
        (counted seen (λ d. (⟦<dyn Device as Device>⟧ d.0).faults d.1) devices.new)
        (S.taken out.old) (S.taken out.new)) }
    ensures part { (parts : List Part) → AreStaged parts staged.entry.items
        → IfErr result (λ fault. TellsPart fault parts detaches.items
        (counted seen (λ d. (⟦<dyn Device as Device>⟧ d.0).faults d.1) devices.old)
        (counted seen (λ d. (⟦<dyn Device as Device>⟧ d.0).faults d.1) devices.new)
        (S.taken out.old) (S.taken out.new)) }
    ensures fault { IsErrOf result PutFault.Fault → FailsOnce (S.faults out.old) (S.faults out.new) }
    ensures stays { result ≢ Err PutFault.Fault → S.faults out.new ≡ S.faults out.old }
    ensures faults { S.faults out.old ≤ S.faults out.new }
{
    match host_staged(alloc, staged, detaches) {
        Ok(hosting) => tell_hosting(alloc, out, hosting, devices),
        Err(_) => Err(PutFault::Memory),
    }
}

/// Tells the programs of a host to their ends, likewise.
pub(crate) fn tell_hosting<S: Sink>(
    alloc: Global,
    out: &mut S,
    hosting: Hosting<'_>,
    devices: &mut Devices<'_>,
) -> Result<(), PutFault>
    requires lent { IsLent }
    requires range { InRange hosting.host.turns }
    requires begins { BeginsHosting hosting.host hosting.names.items }
    ensures same_list { devices.new.list.ghost_name ≡ devices.old.list.ghost_name }
    ensures told { (earlier : ℕ) (programs : List WorldProgram) (parts : List Part) (detaches : List DetachValue)
        → Begins earlier programs parts detaches hosting.entry.host hosting.entry.names.items
        → OnOk result (TellsWorldFrom earlier programs parts detaches
        (counted seen (λ d. (⟦<dyn Device as Device>⟧ d.0).faults d.1) devices.old)
        (counted seen (λ d. (⟦<dyn Device as Device>⟧ d.0).faults d.1) devices.new)
        (S.taken out.old) (S.taken out.new)) }
    ensures part { (earlier : ℕ) (programs : List WorldProgram) (parts : List Part) (detaches : List DetachValue)
        → Begins earlier programs parts detaches hosting.entry.host hosting.entry.names.items
        → IfErr result (λ fault. TellsPartFrom fault earlier programs parts detaches
        (counted seen (λ d. (⟦<dyn Device as Device>⟧ d.0).faults d.1) devices.old)
        (counted seen (λ d. (⟦<dyn Device as Device>⟧ d.0).faults d.1) devices.new)
        (S.taken out.old) (S.taken out.new)) }
    ensures fault { IsErrOf result PutFault.Fault → FailsOnce (S.faults out.old) (S.faults out.new) }
    ensures stays { result ≢ Err PutFault.Fault → S.faults out.new ≡ S.faults out.old }
    ensures faults { S.faults out.old ≤ S.faults out.new }
{
    let Hosting { mut host, names } = hosting;
    let told = tell_lines(alloc, out, &mut host, &names, devices);
    drop(host);
    told
}

// Prints the lines that a host tells, and the last line.
fn tell_lines<S: Sink>(
    alloc: Global,
    out: &mut S,
    host: &mut Host<'_>,
    names: &[Names],
    devices: &mut Devices<'_>,
) -> Result<(), PutFault>
    requires lent { IsLent }
    requires range { InRange host.old.turns }
    requires begins { BeginsHosting host.old names.now }
    ensures same_list { devices.new.list.ghost_name ≡ devices.old.list.ghost_name }
    ensures told { (earlier : ℕ) (programs : List WorldProgram) (parts : List Part) (detaches : List DetachValue)
        → Begins earlier programs parts detaches host.old names.now
        → OnOk result (TellsWorldFrom earlier programs parts detaches
        (counted seen (λ d. (⟦<dyn Device as Device>⟧ d.0).faults d.1) devices.old)
        (counted seen (λ d. (⟦<dyn Device as Device>⟧ d.0).faults d.1) devices.new)
        (S.taken out.old) (S.taken out.new)) }
    ensures part { (earlier : ℕ) (programs : List WorldProgram) (parts : List Part) (detaches : List DetachValue)
        → Begins earlier programs parts detaches host.old names.now
        → IfErr result (λ fault. TellsPartFrom fault earlier programs parts detaches
        (counted seen (λ d. (⟦<dyn Device as Device>⟧ d.0).faults d.1) devices.old)
        (counted seen (λ d. (⟦<dyn Device as Device>⟧ d.0).faults d.1) devices.new)
        (S.taken out.old) (S.taken out.new)) }
    ensures fault { IsErrOf result PutFault.Fault → FailsOnce (S.faults out.old) (S.faults out.new) }
    ensures stays { result ≢ Err PutFault.Fault → S.faults out.new ≡ S.faults out.old }
    ensures faults { S.faults out.old ≤ S.faults out.new }
{
    'telling: for _told in 0..u64::MAX {
        let events = host.events();
        let Ok(next) = host.next_without_mail(devices) else {
            return Err(PutFault::Memory);
        };
        let Some(line) = next else {
            return put_last(alloc, out, names.len(), events);
        };
        if let Err(fault) = put_line(alloc, out, names, &line) {
            return Err(fault);
        }
    }
    // Sixteen programs tell fewer lines: three a step and one more each, and one for each show.
    unreachable!()
}
