//! A script with strands, played.

ghost use Rattle.std.specs.Prelude.{◌≡◌, ◌≤◌, ℕ, List, Option, Some, length};
ghost use Rattle.vault_port.specs.Counts.{FailsAtMostOnce};
ghost use Rattle.vault_port.specs.Files.{Files};
ghost use Rattle.host_laws.specs.Supplies.{IsLent};
ghost use Rattle.script_model.specs.Script.{strand_line};
ghost use Rattle.script_command.specs.StrandStages.{AreStrandsStaged};
ghost use Rattle.script_command.specs.StrandWorldsTold.{NamedStrands};
ghost use Rattle.world_hosting.specs.Counts.{counted};
ghost use Rattle.script_command.specs.declared.way.Way.{Way as WayValue};
ghost use Rattle.script_command.specs.Ends.{HasEnd, call};
ghost use Rattle.script_command.specs.Playing.{Play, detaches_in};
ghost use Rattle.script_command.specs.StrandTold.{strands_played};
ghost use Rattle.script_command.specs.Views.{IsReady, Opens};

use crate::opening::Opened;
use crate::programs::Programs;
use crate::stop::SINK_FAULT;
use crate::strand_staging::stage_all_strands;
use crate::strand_starts::StagedStrands;
use crate::strand_telling::host_strand_programs;
use device_port::{Device, Devices};
use std::alloc::Global;
use transcript::out_of_memory;
use vault_port::{PutFault, Sink};
use wa_model::Detach;

/// Plays what was opened of a script with a `strand` line. (Such a script has no mailbox.)
pub(crate) fn play_strands<S: Sink>(
    alloc: Global,
    out: &mut S,
    devices: &mut Devices<'_>,
    opened: Opened,
) -> u8
    requires lent { IsLent }
    requires ready { IsReady opened }
    requires some { (line : ℕ) × (opened.strand ≡ Some line) }
    ensures end { (way : WayValue) (files : Option Files) (name : List ℕ) (fetched fetched' : ℕ) → Opens way files name opened
        → HasEnd (call way name files fetched fetched' (S.faults out.old) (S.faults out.new) (S.taken out.old) (S.taken out.new)
        (counted seen (λ d. (⟦<dyn Device as Device>⟧ d.0).faults d.1) devices.old)
        (counted seen (λ d. (⟦<dyn Device as Device>⟧ d.0).faults d.1) devices.new)) result }
    ensures same_list { devices.new.list.ghost_name ≡ devices.old.list.ghost_name }
    ensures once { FailsAtMostOnce (S.faults out.old) (S.faults out.new) }
    ensures stays { result ≡ 0 → S.faults out.new ≡ S.faults out.old }
    ensures faults { S.faults out.old ≤ S.faults out.new }
{
    let Opened {
        programs,
        detaches,
        mailboxes,
        strand: _,
    } = opened;
    drop(mailboxes);
    let Programs { modules, planned } = programs;
    match stage_all_strands(alloc, &modules, planned) {
        Ok(staged) => tell_strands(alloc, out, devices, staged, detaches),
        Err(_) => out_of_memory(out),
    }
}

// Prints what programs with strands tell.
fn tell_strands<S: Sink>(
    alloc: Global,
    out: &mut S,
    devices: &mut Devices<'_>,
    staged: Vec<StagedStrands<'_>>,
    detaches: Vec<Detach>,
) -> u8
    requires lent { IsLent }
    requires few { length staged.items ≤ 16 }
    requires staged { (programs : List NamedStrands) × AreStrandsStaged programs staged.items }
    ensures end { (way : WayValue) (files : Option Files) (name : List ℕ) (fetched fetched' line : ℕ) (play : Play way files name)
        → AreStrandsStaged (strands_played play) staged.entry.items → detaches_in play.whole ≡ detaches.items → strand_line play.whole ≡ Some line
        → HasEnd (call way name files fetched fetched' (S.faults out.old) (S.faults out.new) (S.taken out.old) (S.taken out.new)
        (counted seen (λ d. (⟦<dyn Device as Device>⟧ d.0).faults d.1) devices.old)
        (counted seen (λ d. (⟦<dyn Device as Device>⟧ d.0).faults d.1) devices.new)) result }
    ensures same_list { devices.new.list.ghost_name ≡ devices.old.list.ghost_name }
    ensures once { FailsAtMostOnce (S.faults out.old) (S.faults out.new) }
    ensures stays { result ≡ 0 → S.faults out.new ≡ S.faults out.old }
    ensures faults { S.faults out.old ≤ S.faults out.new }
{
    match host_strand_programs(alloc, out, staged, detaches, devices) {
        Ok(()) => 0,
        Err(PutFault::Fault) => SINK_FAULT,
        Err(PutFault::Memory) => out_of_memory(out),
    }
}
