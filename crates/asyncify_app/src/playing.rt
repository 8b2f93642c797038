//! A script, played with a list of boxed devices.

ghost use Rattle.std.specs.Prelude.{◌≡◌, ◌≢◌, ◌≤◌};
ghost use Rattle.host_laws.specs.Supplies.{IsLent};
ghost use Rattle.transcript.specs.Refused.{CountsBy};
ghost use Rattle.asyncify_app.specs.Devices.{counted_boxes};
ghost use Rattle.script_command.specs.Answers.{HasOneEnd};
ghost use Rattle.script_command.specs.Ends.{IsStatus, call};

use device_port::{Device, Devices};
use script_command::{Way, play_script};
use std::alloc::Global;
use vault_port::{Sink, Vault};

/// Plays a script with these devices, and answers the status. No file changes, and a refused script changes no device.
pub(crate) fn play_with<V: Vault, S: Sink>(
    alloc: Global,
    vault: &mut V,
    out: &mut S,
    devices: &mut Vec<Box<dyn Device>>,
    way: Way,
    script: &str,
) -> u8
    requires lent { IsLent }
    ensures one_end { HasOneEnd (call way script.now (V.files vault.old) (V.fetch_faults vault.old) (V.fetch_faults vault.new)
        (S.faults out.old) (S.faults out.new) (S.taken out.old) (S.taken out.new)
        (counted_boxes seen (λ b. (⟦<dyn Device as Device>⟧ b.vtable).faults b.value) devices.old.items)
        (counted_boxes seen (λ b. (⟦<dyn Device as Device>⟧ b.vtable).faults b.value) devices.new.items)) result }
    ensures status { IsStatus way result }
    ensures devices { result ≢ 0 → result ≢ 9 → result ≢ 12
        → counted_boxes seen (λ b. (⟦<dyn Device as Device>⟧ b.vtable).faults b.value) devices.new.items
        ≡ counted_boxes seen (λ b. (⟦<dyn Device as Device>⟧ b.vtable).faults b.value) devices.old.items }
    ensures kept { V.files vault.new ≡ V.files vault.old }
    ensures counts { CountsBy result (V.fetch_faults vault.old) (V.fetch_faults vault.new) (V.save_faults vault.old) (V.save_faults vault.new)
        (S.faults out.old) (S.faults out.new) }
    ensures fetch_faults { V.fetch_faults vault.old ≤ V.fetch_faults vault.new }
    ensures save_faults { V.save_faults vault.new ≡ V.save_faults vault.old }
    ensures sink_faults { S.faults out.old ≤ S.faults out.new }
{
    let mut lent = Devices::new(devices);
    play_script(alloc, vault, out, &mut lent, way, script)
}
