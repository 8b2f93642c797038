//! The command over files and output that never fail.

ghost use Rattle.std.specs.Prelude.{◌≡◌, ◌≢◌, map, Some};
ghost use Rattle.std.specs.String.{string_bytes};
ghost use Rattle.script_model.specs.Spelled.{spelled};
ghost use Rattle.host_laws.specs.Supplies.{IsLent};
ghost use Rattle.memory_vaults.specs.InMemory.{sure_bytes, sure_files};
ghost use Rattle.asyncify_app.specs.Devices.{counted_boxes};
ghost use Rattle.asyncify_app.specs.Ends.{HasOneEnd};
ghost use Rattle.asyncify_app.specs.ReadFiles.{ReadsAbsent};

use asyncify_app::asyncify;
use device_port::Device;
use memory_vaults::{SureSink, SureVault};
use std::alloc::Global;

/// Runs a command over files and output that fail for nothing but want of memory, and answers its status, with the end of a call of
/// `asyncify`: never 11 or 12, and 10 only where a file that is read isn't there.
pub fn over_sure(
    alloc: Global,
    words: &[String],
    vault: &mut SureVault,
    out: &mut SureSink,
    devices: &mut Vec<Box<dyn Device>>,
) -> u8
    requires lent { IsLent }
    ensures one_end { HasOneEnd (record {
      spelled = spelled (map string_bytes words.now);
      files = Some (sure_files vault.old);
      files' = Some (sure_files vault.new);
      fetch_faults = 0;
      fetch_faults' = 0;
      save_faults = 0;
      save_faults' = 0;
      sink_faults = 0;
      sink_faults' = 0;
      taken = Some (sure_bytes out.old);
      taken' = Some (sure_bytes out.new);
      devices = counted_boxes seen (λ b. (⟦<dyn Device as Device>⟧ b.vtable).faults b.value) devices.old.items;
      devices' = counted_boxes seen (λ b. (⟦<dyn Device as Device>⟧ b.vtable).faults b.value) devices.new.items;
    }) result }
    ensures no_write_fault { result ≢ 11 }
    ensures no_sink_fault { result ≢ 12 }
    ensures absent { result ≡ 10 → ReadsAbsent (spelled (map string_bytes words.now)) (sure_files vault.old) }
{
    asyncify(alloc, words, vault, out, devices)
}
