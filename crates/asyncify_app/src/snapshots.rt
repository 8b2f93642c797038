//! Snapshots of a script, with a list of boxed devices.

ghost use Rattle.std.specs.Prelude.{◌≡◌, ◌≢◌, ◌≤◌};
ghost use Rattle.vault_port.specs.Counts.{FailsOnce};
ghost use Rattle.host_laws.specs.Supplies.{IsLent};
ghost use Rattle.transcript.specs.Refused.{CountsBy};
ghost use Rattle.asyncify_app.specs.Devices.{counted_boxes};
ghost use Rattle.script_command.specs.SnapshotAnswers.{HasOneEnd};
ghost use Rattle.script_command.specs.SnapshotCalls.{call, continues, output, saves};
ghost use Rattle.script_command.specs.SnapshotEnds.{IsStatus};

use device_port::{Device, Devices};
use script_command::{SaveRequest, continue_script, save_script};
use std::alloc::Global;
use vault_port::{Sink, Vault};

/// Plays a script up to an event with these devices and saves it, and answers the status.
pub(crate) fn save_with<V: Vault, S: Sink>(
    alloc: Global,
    vault: &mut V,
    out: &mut S,
    devices: &mut Vec<Box<dyn Device>>,
    request: SaveRequest<'_>,
) -> u8
    requires lent { IsLent }
    requires some { 1 ≤ request.events }
    ensures one_end { HasOneEnd (saves request.entry.events) (call request.entry.script.now request.entry.snap.now (V.files vault.old) (V.files vault.new)
        (V.fetch_faults vault.old) (V.fetch_faults vault.new) (V.save_faults vault.old) (V.save_faults vault.new)
        (counted_boxes seen (λ b. (⟦<dyn Device as Device>⟧ b.vtable).faults b.value) devices.old.items)
        (counted_boxes seen (λ b. (⟦<dyn Device as Device>⟧ b.vtable).faults b.value) devices.new.items))
        (output (S.taken out.old) (S.taken out.new) (S.faults out.old) (S.faults out.new)) result }
    ensures status { IsStatus (saves request.entry.events) result }
    ensures kept { result ≢ 0 → result ≢ 9 → result ≢ 11 → V.files vault.new ≡ V.files vault.old }
    ensures write_fault { result ≡ 11 → FailsOnce (V.save_faults vault.old) (V.save_faults vault.new) }
    ensures sink_fault { result ≡ 12 → FailsOnce (S.faults out.old) (S.faults out.new) }
    ensures counts { CountsBy result (V.fetch_faults vault.old) (V.fetch_faults vault.new) (V.save_faults vault.old) (V.save_faults vault.new)
        (S.faults out.old) (S.faults out.new) }
    ensures fetch_faults { V.fetch_faults vault.old ≤ V.fetch_faults vault.new }
    ensures save_faults { V.save_faults vault.old ≤ V.save_faults vault.new }
    ensures sink_faults { S.faults out.old ≤ S.faults out.new }
{
    let mut lent = Devices::new(devices);
    save_script(alloc, vault, out, &mut lent, request)
}

/// Goes on with a script from a snapshot, with these devices, and answers the status. No file changes, and a refusal changes no device.
pub(crate) fn continue_with<V: Vault, S: Sink>(
    alloc: Global,
    vault: &mut V,
    out: &mut S,
    devices: &mut Vec<Box<dyn Device>>,
    script: &str,
    snap: &str,
) -> u8
    requires lent { IsLent }
    ensures one_end { HasOneEnd continues (call script.now snap.now (V.files vault.old) (V.files vault.new)
        (V.fetch_faults vault.old) (V.fetch_faults vault.new) (V.save_faults vault.old) (V.save_faults vault.new)
        (counted_boxes seen (λ b. (⟦<dyn Device as Device>⟧ b.vtable).faults b.value) devices.old.items)
        (counted_boxes seen (λ b. (⟦<dyn Device as Device>⟧ b.vtable).faults b.value) devices.new.items))
        (output (S.taken out.old) (S.taken out.new) (S.faults out.old) (S.faults out.new)) result }
    ensures status { IsStatus continues result }
    ensures devices { result ≢ 0 → result ≢ 9 → result ≢ 12
        → counted_boxes seen (λ b. (⟦<dyn Device as Device>⟧ b.vtable).faults b.value) devices.new.items
        ≡ counted_boxes seen (λ b. (⟦<dyn Device as Device>⟧ b.vtable).faults b.value) devices.old.items }
    ensures kept { V.files vault.new ≡ V.files vault.old }
    ensures sink_fault { result ≡ 12 → FailsOnce (S.faults out.old) (S.faults out.new) }
    ensures counts { CountsBy result (V.fetch_faults vault.old) (V.fetch_faults vault.new) (V.save_faults vault.old) (V.save_faults vault.new)
        (S.faults out.old) (S.faults out.new) }
    ensures fetch_faults { V.fetch_faults vault.old ≤ V.fetch_faults vault.new }
    ensures save_faults { V.save_faults vault.new ≡ V.save_faults vault.old }
    ensures sink_faults { S.faults out.old ≤ S.faults out.new }
{
    let mut lent = Devices::new(devices);
    continue_script(alloc, vault, out, &mut lent, script, snap)
}
