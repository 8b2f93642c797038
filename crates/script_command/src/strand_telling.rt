//! Programs with strands, told to their ends.

ghost use Rattle.std.specs.Prelude.{◌≡◌, ◌≢◌, ◌≤◌, IsErrOf, List, OnOk, length};
ghost use Rattle.std.specs.Result.{IfErr};
ghost use Rattle.vault_port.specs.Counts.{FailsOnce};
ghost use Rattle.wa_model.specs.declared.answers.Detach.{Detach as DetachValue};
ghost use Rattle.host_laws.specs.Supplies.{IsLent};
ghost use Rattle.strand_host.specs.StrandStanding.{AreInRange};
ghost use Rattle.world_hosting.specs.Counts.{counted};
ghost use Rattle.script_command.specs.StrandParts.{BeginsStrandHosting, BeginsStrands};
ghost use Rattle.script_command.specs.StrandStages.{AreStrandsStaged};
ghost use Rattle.script_command.specs.StrandWorldsTold.{NamedStrands, PrintsStrands, PrintsStrandsPart};

use crate::strand_hosting::{StrandHosting, host_strands};
use crate::strand_printing::put_strand_line;
use crate::strand_starts::StagedStrands;
use device_port::{Device, Devices};
use std::alloc::Global;
use strand_host::StrandHost;
use transcript::{Names, put_last};
use vault_port::{PutFault, Sink};
use wa_model::Detach;

/// Tells up to sixteen programs with strands to their ends and prints each line as it comes, then the last line, which counts all events.
/// A call of a bound import asks its device; before an event the devices are taken out whose detaches have its number. After an error some
/// first bytes of that were printed, and not all of them where the sink failed.
pub fn host_strand_programs<S: Sink>(
    alloc: Global,
    out: &mut S,
    staged: Vec<StagedStrands<'_>>,
    detaches: Vec<Detach>,
    devices: &mut Devices<'_>,
) -> Result<(), PutFault>
    requires lent { IsLent }
    requires few { length staged.items ≤ 16 }
    requires staged { (programs : List NamedStrands) × AreStrandsStaged programs staged.items }
    ensures same_list { devices.new.list.ghost_name ≡ devices.old.list.ghost_name }
    ensures told { (programs : List NamedStrands) → AreStrandsStaged programs staged.entry.items
        → OnOk result (PrintsStrands programs detaches.items
        (counted seen (λ d. (⟦<dyn Device as Device>⟧ d.0).faults d.1) devices.old)
        (counted seen (λ d. (⟦<dyn Device as Device>⟧ d.0).faults d.1) devices.new)
        (S.taken out.old) (S.taken out.new)) }
    ensures part { (programs : List NamedStrands) → AreStrandsStaged programs staged.entry.items
        → IfErr result (λ fault. PrintsStrandsPart fault programs detaches.items
        (counted seen (λ d. (⟦<dyn Device as Device>⟧ d.0).faults d.1) devices.old)
        (counted seen (λ d. (⟦<dyn Device as Device>⟧ d.0).faults d.1) devices.new)
        (S.taken out.old) (S.taken out.new)) }
    ensures fault { IsErrOf result PutFault.Fault → FailsOnce (S.faults out.old) (S.faults out.new) }
    ensures stays { result ≢ Err PutFault.Fault → S.faults out.new ≡ S.faults out.old }
    ensures faults { S.faults out.old ≤ S.faults out.new }
{
    match host_strands(alloc, staged, detaches) {
        Ok(hosting) => tell_strand_hosting(alloc, out, hosting, devices),
        Err(_) => Err(PutFault::Memory),
    }
}

// Tells the programs of a host to their ends, likewise.
fn tell_strand_hosting<S: Sink>(
    alloc: Global,
    out: &mut S,
    hosting: StrandHosting<'_>,
    devices: &mut Devices<'_>,
) -> Result<(), PutFault>
    requires lent { IsLent }
    requires range { AreInRange hosting.host.turns }
    requires begins { BeginsStrandHosting hosting.host hosting.names.items }
    ensures same_list { devices.new.list.ghost_name ≡ devices.old.list.ghost_name }
    ensures told { (programs : List NamedStrands) (detaches : List DetachValue) → BeginsStrands programs detaches hosting.entry.host hosting.entry.names.items
        → OnOk result (PrintsStrands programs detaches
        (counted seen (λ d. (⟦<dyn Device as Device>⟧ d.0).faults d.1) devices.old)
        (counted seen (λ d. (⟦<dyn Device as Device>⟧ d.0).faults d.1) devices.new)
        (S.taken out.old) (S.taken out.new)) }
    ensures part { (programs : List NamedStrands) (detaches : List DetachValue) → BeginsStrands programs detaches hosting.entry.host hosting.entry.names.items
        → IfErr result (λ fault. PrintsStrandsPart fault programs detaches
        (counted seen (λ d. (⟦<dyn Device as Device>⟧ d.0).faults d.1) devices.old)
        (counted seen (λ d. (⟦<dyn Device as Device>⟧ d.0).faults d.1) devices.new)
        (S.taken out.old) (S.taken out.new)) }
    ensures fault { IsErrOf result PutFault.Fault → FailsOnce (S.faults out.old) (S.faults out.new) }
    ensures stays { result ≢ Err PutFault.Fault → S.faults out.new ≡ S.faults out.old }
    ensures faults { S.faults out.old ≤ S.faults out.new }
{
    let StrandHosting { mut host, names } = hosting;
    let told = tell_strand_lines(alloc, out, &mut host, &names, devices);
    drop(host);
    told
}

// Prints the lines that a host tells, and the last line.
fn tell_strand_lines<S: Sink>(
    alloc: Global,
    out: &mut S,
    host: &mut StrandHost<'_>,
    names: &[Vec<Names>],
    devices: &mut Devices<'_>,
) -> Result<(), PutFault>
    requires lent { IsLent }
    requires range { AreInRange host.old.turns }
    requires begins { BeginsStrandHosting host.old names.now }
    ensures same_list { devices.new.list.ghost_name ≡ devices.old.list.ghost_name }
    ensures told { (programs : List NamedStrands) (detaches : List DetachValue) → BeginsStrands programs detaches host.old names.now
        → OnOk result (PrintsStrands programs detaches
        (counted seen (λ d. (⟦<dyn Device as Device>⟧ d.0).faults d.1) devices.old)
        (counted seen (λ d. (⟦<dyn Device as Device>⟧ d.0).faults d.1) devices.new)
        (S.taken out.old) (S.taken out.new)) }
    ensures part { (programs : List NamedStrands) (detaches : List DetachValue) → BeginsStrands programs detaches host.old names.now
        → IfErr result (λ fault. PrintsStrandsPart fault programs detaches
        (counted seen (λ d. (⟦<dyn Device as Device>⟧ d.0).faults d.1) devices.old)
        (counted seen (λ d. (⟦<dyn Device as Device>⟧ d.0).faults d.1) devices.new)
        (S.taken out.old) (S.taken out.new)) }
    ensures fault { IsErrOf result PutFault.Fault → FailsOnce (S.faults out.old) (S.faults out.new) }
    ensures stays { result ≢ Err PutFault.Fault → S.faults out.new ≡ S.faults out.old }
    ensures faults { S.faults out.old ≤ S.faults out.new }
{
    'telling: for _told in 0..u128::MAX {
        let events = host.events();
        let Ok(next) = host.next(devices) else {
            return Err(PutFault::Memory);
        };
        let Some(line) = next else {
            return put_last(alloc, out, names.len(), events);
        };
        if let Err(fault) = put_strand_line(alloc, out, names, line) {
            return Err(fault);
        }
    }
    // Sixteen programs tell fewer lines: each event tells a note at least, of which there are fewer than 2^40, and at most as many shows as there are.
    unreachable!()
}
