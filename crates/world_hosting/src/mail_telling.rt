//! The programs of a script that share mailboxes, told to their ends.

ghost use Rattle.std.specs.Prelude.{◌≡◌, ◌≢◌, ◌≤◌, ℕ, IsErrOf, List, OnOk, length};
ghost use Rattle.std.specs.Result.{IfErr};
ghost use Rattle.vault_port.specs.Counts.{FailsOnce};
ghost use Rattle.wa_model.specs.declared.answers.Detach.{Detach as DetachValue};
ghost use Rattle.host_laws.specs.Supplies.{IsLent};
ghost use Rattle.mailbox_device.specs.Mail.{empty_mail};
ghost use Rattle.many_host.specs.Standing.{InRange};
ghost use Rattle.world_hosting.specs.Counts.{counted};
ghost use Rattle.world_hosting.specs.MailWorlds.{TellsMail, TellsMailPart};
ghost use Rattle.world_hosting.specs.Parted.{BeginsMail, BeginsMailHosting};
ghost use Rattle.world_hosting.specs.Views.{AreStaged};
ghost use Rattle.world_hosting.specs.Worlds.{Part};

use crate::hosting::{Hosting, host_staged};
use crate::staging::Staged;
use device_port::{Device, Devices};
use mailbox_device::Mailboxes;
use many_host::Host;
use std::alloc::Global;
use transcript::{Names, put_last, put_line};
use vault_port::{PutFault, Sink};
use wa_model::Detach;
use wa_types::Name;

/// Tells up to sixteen programs to their ends, which share mailboxes of these names, and prints each line as it comes, then the last line,
/// which counts all events. A call of an import that is bound to a mailbox's name sends or receives there, whatever devices there are; any
/// other bound import asks its device. After an error some first bytes of that were printed, and not all of them where the sink failed.
pub fn host_mail_programs<S: Sink>(
    alloc: Global,
    out: &mut S,
    staged: Vec<Staged<'_>>,
    detaches: Vec<Detach>,
    mailboxes: Vec<Name>,
    devices: &mut Devices<'_>,
) -> Result<(), PutFault>
    requires lent { IsLent }
    requires few { length staged.items ≤ 16 }
    requires staged { (parts : List Part) × AreStaged parts staged.items }
    ensures same_list { devices.new.list.ghost_name ≡ devices.old.list.ghost_name }
    ensures told { (parts : List Part) → AreStaged parts staged.entry.items
        → OnOk result (TellsMail parts detaches.items mailboxes.items
        (counted seen (λ d. (⟦<dyn Device as Device>⟧ d.0).faults d.1) devices.old)
        (counted seen (λ d. (⟦<dyn Device as Device>⟧ d.0).faults d.1) devices.new)
        (S.taken out.old) (S.taken out.new)) }
    ensures part { (parts : List Part) → AreStaged parts staged.entry.items
        → IfErr result (λ fault. TellsMailPart fault parts detaches.items mailboxes.items
        (counted seen (λ d. (⟦<dyn Device as Device>⟧ d.0).faults d.1) devices.old)
        (counted seen (λ d. (⟦<dyn Device as Device>⟧ d.0).faults d.1) devices.new)
        (S.taken out.old) (S.taken out.new)) }
    ensures fault { IsErrOf result PutFault.Fault → FailsOnce (S.faults out.old) (S.faults out.new) }
    ensures stays { result ≢ Err PutFault.Fault → S.faults out.new ≡ S.faults out.old }
    ensures faults { S.faults out.old ≤ S.faults out.new }
{
    let Ok(mut mail) = Mailboxes::new(alloc, mailboxes) else {
        return Err(PutFault::Memory);
    };
    match host_staged(alloc, staged, detaches) {
        Ok(hosting) => tell_mail_hosting(alloc, out, hosting, devices, &mut mail),
        Err(_) => Err(PutFault::Memory),
    }
}

// Tells the programs of a host to their ends, likewise.
fn tell_mail_hosting<S: Sink>(
    alloc: Global,
    out: &mut S,
    hosting: Hosting<'_>,
    devices: &mut Devices<'_>,
    mail: &mut Mailboxes,
) -> Result<(), PutFault>
    requires lent { IsLent }
    requires range { InRange hosting.host.turns }
    requires begins { BeginsMailHosting hosting.host hosting.names.items mail.old }
    ensures same_list { devices.new.list.ghost_name ≡ devices.old.list.ghost_name }
    ensures told { (parts : List Part) (detaches : List DetachValue) (boxes : List (List ℕ)) → BeginsMail parts detaches boxes hosting.entry.host hosting.entry.names.items
        → mail.old ≡ empty_mail boxes
        → OnOk result (TellsMail parts detaches boxes
        (counted seen (λ d. (⟦<dyn Device as Device>⟧ d.0).faults d.1) devices.old)
        (counted seen (λ d. (⟦<dyn Device as Device>⟧ d.0).faults d.1) devices.new)
        (S.taken out.old) (S.taken out.new)) }
    ensures part { (parts : List Part) (detaches : List DetachValue) (boxes : List (List ℕ)) → BeginsMail parts detaches boxes hosting.entry.host hosting.entry.names.items
        → mail.old ≡ empty_mail boxes
        → IfErr result (λ fault. TellsMailPart fault parts detaches boxes
        (counted seen (λ d. (⟦<dyn Device as Device>⟧ d.0).faults d.1) devices.old)
        (counted seen (λ d. (⟦<dyn Device as Device>⟧ d.0).faults d.1) devices.new)
        (S.taken out.old) (S.taken out.new)) }
    ensures fault { IsErrOf result PutFault.Fault → FailsOnce (S.faults out.old) (S.faults out.new) }
    ensures stays { result ≢ Err PutFault.Fault → S.faults out.new ≡ S.faults out.old }
    ensures faults { S.faults out.old ≤ S.faults out.new }
{
    let Hosting { mut host, names } = hosting;
    let told = tell_mail_lines(alloc, out, &mut host, &names, devices, mail);
    drop(host);
    told
}

// Prints the lines that a host tells, and the last line.
fn tell_mail_lines<S: Sink>(
    alloc: Global,
    out: &mut S,
    host: &mut Host<'_>,
    names: &[Names],
    devices: &mut Devices<'_>,
    mail: &mut Mailboxes,
) -> Result<(), PutFault>
    requires lent { IsLent }
    requires range { InRange host.old.turns }
    requires begins { BeginsMailHosting host.old names.now mail.old }
    ensures same_list { devices.new.list.ghost_name ≡ devices.old.list.ghost_name }
    ensures told { (parts : List Part) (detaches : List DetachValue) (boxes : List (List ℕ)) → BeginsMail parts detaches boxes host.old names.now → mail.old ≡ empty_mail boxes
        → OnOk result (TellsMail parts detaches boxes
        (counted seen (λ d. (⟦<dyn Device as Device>⟧ d.0).faults d.1) devices.old)
        (counted seen (λ d. (⟦<dyn Device as Device>⟧ d.0).faults d.1) devices.new)
        (S.taken out.old) (S.taken out.new)) }
    ensures part { (parts : List Part) (detaches : List DetachValue) (boxes : List (List ℕ)) → BeginsMail parts detaches boxes host.old names.now → mail.old ≡ empty_mail boxes
        → IfErr result (λ fault. TellsMailPart fault parts detaches boxes
        (counted seen (λ d. (⟦<dyn Device as Device>⟧ d.0).faults d.1) devices.old)
        (counted seen (λ d. (⟦<dyn Device as Device>⟧ d.0).faults d.1) devices.new)
        (S.taken out.old) (S.taken out.new)) }
    ensures fault { IsErrOf result PutFault.Fault → FailsOnce (S.faults out.old) (S.faults out.new) }
    ensures stays { result ≢ Err PutFault.Fault → S.faults out.new ≡ S.faults out.old }
    ensures faults { S.faults out.old ≤ S.faults out.new }
{
    'telling: for _told in 0..u128::MAX {
        let events = host.events();
        let Ok(next) = host.next(devices, mail) else {
            return Err(PutFault::Memory);
        };
        let Some(line) = next else {
            return put_last(alloc, out, names.len(), events);
        };
        if let Err(fault) = put_line(alloc, out, names, &line) {
            return Err(fault);
        }
    }
    // Sixteen programs tell fewer lines: three a step and two more each, and two for each show at most, which may be more than 2^64.
    unreachable!()
}
