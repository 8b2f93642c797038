//! A script, played: from its file to the status.

ghost use Rattle.std.specs.Prelude.{◌≡◌, ◌≤◌, [], IfOk, ℕ, List, None, Option, length, map};
ghost use Rattle.vault_port.specs.Counts.{FailsAtMostOnce};
ghost use Rattle.vault_port.specs.Files.{Files};
ghost use Rattle.transcript.specs.Refused.{CountsBy};
ghost use Rattle.host_laws.specs.Supplies.{IsLent};
ghost use Rattle.script_model.specs.Script.{strand_line};
ghost use Rattle.script_reader.specs.Views.{mailbox_of};
ghost use Rattle.script_setup.specs.SetUpRules.{box_names};
ghost use Rattle.script_command.specs.Playing.{Play, detaches_in};
ghost use Rattle.script_command.specs.Views.{CanPlay, IsReady, Opens};
ghost use Rattle.script_command.specs.declared.way.Way.{Way as WayValue};
ghost use Rattle.world_hosting.specs.Counts.{counted};
ghost use Rattle.world_hosting.specs.Views.{AreStaged};
ghost use Rattle.world_hosting.specs.Worlds.{Part};
ghost use Rattle.script_command.specs.Answers.{HasOneEnd};
ghost use Rattle.script_command.specs.Ends.{HasEnd, IsStatus, call};
ghost use Rattle.script_command.specs.MailTold.{boxes_of};

use crate::opening::{Opened, open_script};
use crate::programs::Programs;
use crate::staging::stage_all;
use crate::stop::{SINK_FAULT, tell_stop};
use crate::strand_playing::play_strands;
use crate::way::Way;
use device_port::{Device, Devices};
use script_reader::MailboxText;
use std::alloc::{AllocError, Global};
use transcript::out_of_memory;
use vault_port::{PutFault, Sink, Vault};
use wa_model::Detach;
use wa_types::Name;
use world_hosting::{Staged, host_mail_programs, host_programs};

/// `host SCRIPT` or `run SCRIPT`: reads the script, then each of its programs in order, its module first and then its set-up rules,
/// and prints the transcript of what they tell, with these devices. Answers the status: 0 done; 3 to 7 for a program's module, by why
/// it is refused; 8 for a line of the script; 6 for its length or a seventeenth program too; 9 want of memory; 10 for a file that could
/// not be read; 12 for a sink that failed. No file changes, and a refused script changes no device.
pub fn play_script<V: Vault, S: Sink>(
    alloc: Global,
    vault: &mut V,
    out: &mut S,
    devices: &mut Devices<'_>,
    way: Way,
    script: &str,
) -> u8
    requires lent { IsLent }
    ensures one_end { HasOneEnd (call way script.now (V.files vault.old) (V.fetch_faults vault.old) (V.fetch_faults vault.new)
        (S.faults out.old) (S.faults out.new) (S.taken out.old) (S.taken out.new)
        (counted seen (λ d. (⟦<dyn Device as Device>⟧ d.0).faults d.1) devices.old)
        (counted seen (λ d. (⟦<dyn Device as Device>⟧ d.0).faults d.1) devices.new)) result }
    ensures status { IsStatus way result }
    ensures same_list { devices.new.list.ghost_name ≡ devices.old.list.ghost_name }
    ensures kept { V.files vault.new ≡ V.files vault.old }
    ensures counts { CountsBy result (V.fetch_faults vault.old) (V.fetch_faults vault.new) (V.save_faults vault.old) (V.save_faults vault.new)
        (S.faults out.old) (S.faults out.new) }
    ensures fetch_faults { V.fetch_faults vault.old ≤ V.fetch_faults vault.new }
    ensures save_faults { V.save_faults vault.new ≡ V.save_faults vault.old }
    ensures sink_faults { S.faults out.old ≤ S.faults out.new }
{
    match open_script(alloc, vault, way, script) {
        Ok(opened) => play(alloc, out, devices, opened),
        Err(stop) => tell_stop(alloc, out, stop),
    }
}

// Plays what was opened, with strands where there are some.
fn play<S: Sink>(alloc: Global, out: &mut S, devices: &mut Devices<'_>, opened: Opened) -> u8
    requires lent { IsLent }
    requires ready { IsReady opened }
    ensures end { (way : WayValue) (files : Option Files) (name : List ℕ) (fetched fetched' : ℕ) → Opens way files name opened
        → HasEnd (call way name files fetched fetched' (S.faults out.old) (S.faults out.new) (S.taken out.old) (S.taken out.new)
        (counted seen (λ d. (⟦<dyn Device as Device>⟧ d.0).faults d.1) devices.old)
        (counted seen (λ d. (⟦<dyn Device as Device>⟧ d.0).faults d.1) devices.new)) result }
    ensures same_list { devices.new.list.ghost_name ≡ devices.old.list.ghost_name }
    ensures once { FailsAtMostOnce (S.faults out.old) (S.faults out.new) }
    ensures stays { result ≡ 0 → S.faults out.new ≡ S.faults out.old }
    ensures faults { S.faults out.old ≤ S.faults out.new }
{
    match opened.strand {
        None => play_plainly(alloc, out, devices, opened),
        Some(_) => play_strands(alloc, out, devices, opened),
    }
}

// Plays what was opened of a script without `strand` lines.
fn play_plainly<S: Sink>(
    alloc: Global,
    out: &mut S,
    devices: &mut Devices<'_>,
    opened: Opened,
) -> u8
    requires lent { IsLent }
    requires plays { CanPlay opened }
    requires none { opened.strand ≡ None }
    ensures end { (way : WayValue) (files : Option Files) (name : List ℕ) (fetched fetched' : ℕ) → Opens way files name opened
        → HasEnd (call way name files fetched fetched' (S.faults out.old) (S.faults out.new) (S.taken out.old) (S.taken out.new)
        (counted seen (λ d. (⟦<dyn Device as Device>⟧ d.0).faults d.1) devices.old)
        (counted seen (λ d. (⟦<dyn Device as Device>⟧ d.0).faults d.1) devices.new)) result }
    ensures same_list { devices.new.list.ghost_name ≡ devices.old.list.ghost_name }
    ensures once { FailsAtMostOnce (S.faults out.old) (S.faults out.new) }
    ensures stays { result ≡ 0 → S.faults out.new ≡ S.faults out.old }
    ensures faults { S.faults out.old ≤ S.faults out.new }
{
    let Opened {
        programs,
        detaches,
        mailboxes,
        strand: _,
    } = opened;
    let Programs { modules, planned } = programs;
    match stage_all(alloc, &modules, planned) {
        Ok(staged) => tell_by_mail(alloc, out, devices, staged, detaches, mailboxes),
        Err(_) => out_of_memory(out),
    }
}

// Prints what programs tell, with mailboxes where there are some.
fn tell_by_mail<S: Sink>(
    alloc: Global,
    out: &mut S,
    devices: &mut Devices<'_>,
    staged: Vec<Staged<'_>>,
    detaches: Vec<Detach>,
    mailboxes: Vec<MailboxText>,
) -> u8
    requires lent { IsLent }
    requires few { length staged.items ≤ 16 }
    requires staged { (parts : List Part) × AreStaged parts staged.items }
    ensures end { (way : WayValue) (files : Option Files) (name : List ℕ) (fetched fetched' : ℕ) (play : Play way files name)
        → AreStaged play.parts staged.entry.items → detaches_in play.whole ≡ detaches.items → strand_line play.whole ≡ None → play.whole.mailboxes ≡ map mailbox_of mailboxes.items
        → HasEnd (call way name files fetched fetched' (S.faults out.old) (S.faults out.new) (S.taken out.old) (S.taken out.new)
        (counted seen (λ d. (⟦<dyn Device as Device>⟧ d.0).faults d.1) devices.old)
        (counted seen (λ d. (⟦<dyn Device as Device>⟧ d.0).faults d.1) devices.new)) result }
    ensures same_list { devices.new.list.ghost_name ≡ devices.old.list.ghost_name }
    ensures once { FailsAtMostOnce (S.faults out.old) (S.faults out.new) }
    ensures stays { result ≡ 0 → S.faults out.new ≡ S.faults out.old }
    ensures faults { S.faults out.old ≤ S.faults out.new }
{
    if mailboxes.is_empty() {
        return tell(alloc, out, devices, staged, detaches);
    }
    match mailbox_names(alloc, mailboxes) {
        Ok(names) => tell_with_mail(alloc, out, devices, staged, detaches, names),
        Err(_) => out_of_memory(out),
    }
}

// The names of mailboxes, in order.
fn mailbox_names(alloc: Global, texts: Vec<MailboxText>) -> Result<Vec<Name>, AllocError>
    ensures { IfOk result (λ names. names.items ≡ box_names (map mailbox_of texts.items)) }
{
    let mut names = Vec::new(alloc);
    for text in texts {
        names.push(text.name)?;
    }
    Ok(names)
}

// Prints what programs without mailboxes tell.
fn tell<S: Sink>(
    alloc: Global,
    out: &mut S,
    devices: &mut Devices<'_>,
    staged: Vec<Staged<'_>>,
    detaches: Vec<Detach>,
) -> u8
    requires lent { IsLent }
    requires few { length staged.items ≤ 16 }
    requires staged { (parts : List Part) × AreStaged parts staged.items }
    ensures end { (way : WayValue) (files : Option Files) (name : List ℕ) (fetched fetched' : ℕ) (play : Play way files name)
        → AreStaged play.parts staged.entry.items → detaches_in play.whole ≡ detaches.items → strand_line play.whole ≡ None → play.whole.mailboxes ≡ []
        → HasEnd (call way name files fetched fetched' (S.faults out.old) (S.faults out.new) (S.taken out.old) (S.taken out.new)
        (counted seen (λ d. (⟦<dyn Device as Device>⟧ d.0).faults d.1) devices.old)
        (counted seen (λ d. (⟦<dyn Device as Device>⟧ d.0).faults d.1) devices.new)) result }
    ensures same_list { devices.new.list.ghost_name ≡ devices.old.list.ghost_name }
    ensures once { FailsAtMostOnce (S.faults out.old) (S.faults out.new) }
    ensures stays { result ≡ 0 → S.faults out.new ≡ S.faults out.old }
    ensures faults { S.faults out.old ≤ S.faults out.new }
{
    match host_programs(alloc, out, staged, detaches, devices) {
        Ok(()) => 0,
        Err(PutFault::Fault) => SINK_FAULT,
        Err(PutFault::Memory) => out_of_memory(out),
    }
}

// Prints what programs with mailboxes tell.
fn tell_with_mail<S: Sink>(
    alloc: Global,
    out: &mut S,
    devices: &mut Devices<'_>,
    staged: Vec<Staged<'_>>,
    detaches: Vec<Detach>,
    mailboxes: Vec<Name>,
) -> u8
    requires lent { IsLent }
    requires few { length staged.items ≤ 16 }
    requires staged { (parts : List Part) × AreStaged parts staged.items }
    ensures end { (way : WayValue) (files : Option Files) (name : List ℕ) (fetched fetched' : ℕ) (play : Play way files name)
        → AreStaged play.parts staged.entry.items → detaches_in play.whole ≡ detaches.items → strand_line play.whole ≡ None → boxes_of play ≡ mailboxes.items → (play.whole.mailboxes ≡ [] → ⊥)
        → HasEnd (call way name files fetched fetched' (S.faults out.old) (S.faults out.new) (S.taken out.old) (S.taken out.new)
        (counted seen (λ d. (⟦<dyn Device as Device>⟧ d.0).faults d.1) devices.old)
        (counted seen (λ d. (⟦<dyn Device as Device>⟧ d.0).faults d.1) devices.new)) result }
    ensures same_list { devices.new.list.ghost_name ≡ devices.old.list.ghost_name }
    ensures once { FailsAtMostOnce (S.faults out.old) (S.faults out.new) }
    ensures stays { result ≡ 0 → S.faults out.new ≡ S.faults out.old }
    ensures faults { S.faults out.old ≤ S.faults out.new }
{
    match host_mail_programs(alloc, out, staged, detaches, mailboxes, devices) {
        Ok(()) => 0,
        Err(PutFault::Fault) => SINK_FAULT,
        Err(PutFault::Memory) => out_of_memory(out),
    }
}
