//! A command from its words to its status.

ghost use Rattle.std.specs.Prelude.{◌≡◌, ◌≢◌, ◌⊎◌, ◌≤◌, map, None, IsSome};
ghost use Rattle.std.specs.String.{string_bytes};
ghost use Rattle.vault_port.specs.Counts.{FailsOnce};
ghost use Rattle.vault_port.specs.Files.{bytes_of, CannotRead};
ghost use Rattle.vault_port.specs.Told.{WhereTold, Becomes};
ghost use Rattle.script_model.specs.Command.{OnTransform, command};
ghost use Rattle.script_model.specs.Spelled.{rewriting, spelled};
ghost use Rattle.script_model.specs.Transcript.{read_fault, refusal_line, usage, write_fault};
ghost use Rattle.transcript.specs.Refused.{CountsBy, Prints, PrintsMemory};
ghost use Rattle.transform_command.specs.Ends.{IsRefusal};
ghost use Rattle.transform_command.specs.Sources.{IsTransformed};
ghost use Rattle.transform_command.specs.Transforms.{HasCause, HoldsSource, IsCutShort, PrintsRefusal, PrintsDone, PrintsLess, RunsOutOfMemory};
ghost use Rattle.host_laws.specs.Supplies.{IsLent};
ghost use Rattle.asyncify_app.specs.Devices.{counted_boxes};
ghost use Rattle.asyncify_app.specs.Ends.{HasOneEnd, OffSave, OffScript, OnScript};

use crate::generating::run_generated;
use crate::playing::play_with;
use crate::snapshots::{continue_with, save_with};
use command_words::{Command, WordsFault, read_words};
use device_port::Device;
use script_command::{SaveRequest, Way, run_transform};
use std::alloc::Global;
use transcript::{RefusalKind, out_of_memory, refuse};
use vault_port::{Sink, Vault};

/// Runs the command that the words spell, without the program's own name, over a vault of files, a sink for what it prints, and
/// devices that answer imports of the programs of a script, and answers its status: 0 done, 2 no command, 3 bytes that spell no module,
/// 4 a float, 5 a module that isn't valid, 6 a limit, 7 a reserved name, 8 a line of a script, 9 want of memory, 10 a file that could not
/// be read, 11 one that could not be written, 12 a sink that failed, 13 a snapshot that doesn't fit. Each refusal prints a line, and changes
/// no device, unless events have been played that weren't saved. Want of memory may come in the place of any other answer.
pub fn asyncify<V: Vault, S: Sink>(
    alloc: Global,
    words: &[String],
    vault: &mut V,
    out: &mut S,
    devices: &mut Vec<Box<dyn Device>>,
) -> u8
    requires lent { IsLent }
    ensures usage { spelled (map string_bytes words.now) ≡ None → (result ≡ 2) ⊎ (result ≡ 9) }
    ensures usage_alone { result ≡ 2 → spelled (map string_bytes words.now) ≡ None }
    ensures usage_files { spelled (map string_bytes words.now) ≡ None → V.files vault.new ≡ V.files vault.old }
    ensures prints_usage { result ≡ 2 → Becomes (S.taken out.old) (S.taken out.new) (Prints (refusal_line None usage) (S.faults out.old) (S.faults out.new)) }
    ensures prints_usage_memory { spelled (map string_bytes words.now) ≡ None → result ≡ 9 → Becomes (S.taken out.old) (S.taken out.new) (PrintsMemory (refusal_line None usage) (S.faults out.old) (S.faults out.new)) }
    ensures status { (result ≡ 0) ⊎ (result ≡ 2) ⊎ IsRefusal result ⊎ (result ≡ 8) ⊎ (result ≡ 9) ⊎ (result ≡ 10) ⊎ (result ≡ 11) ⊎ (result ≡ 12) ⊎ (result ≡ 13) }

    // Exactly one end, with its cause.
    ensures one_end { HasOneEnd (record {
      spelled = spelled (map string_bytes words.now);
      files = V.files vault.old;
      files' = V.files vault.new;
      fetch_faults = V.fetch_faults vault.old;
      fetch_faults' = V.fetch_faults vault.new;
      save_faults = V.save_faults vault.old;
      save_faults' = V.save_faults vault.new;
      sink_faults = S.faults out.old;
      sink_faults' = S.faults out.new;
      taken = S.taken out.old;
      taken' = S.taken out.new;
      devices = counted_boxes seen (λ b. (⟦<dyn Device as Device>⟧ b.vtable).faults b.value) devices.old.items;
      devices' = counted_boxes seen (λ b. (⟦<dyn Device as Device>⟧ b.vtable).faults b.value) devices.new.items;
    }) result }

    // The causes.
    ensures read_fault { OnTransform (rewriting (spelled (map string_bytes words.now))) (λ settings input output.
        result ≡ 10 → CannotRead (V.files vault.old) input (V.fetch_faults vault.old) (V.fetch_faults vault.new)) }
    ensures refused { OnTransform (rewriting (spelled (map string_bytes words.now))) (λ settings input output.
        IsRefusal result → HasCause settings (V.files vault.old) input result) }
    ensures built { OnTransform (rewriting (spelled (map string_bytes words.now))) (λ settings input output.
        result ≡ 11 → WhereTold (V.files vault.old) (λ all. HoldsSource settings (bytes_of all input))) }
    ensures there { OnTransform (rewriting (spelled (map string_bytes words.now))) (λ settings input output.
        (result ≡ 9) ⊎ (result ≡ 10) ⊎ WhereTold (V.files vault.old) (λ all. IsSome (all input))) }
    ensures write_fault { result ≡ 11 → FailsOnce (V.save_faults vault.old) (V.save_faults vault.new) }
    ensures sink_fault { result ≡ 12 → FailsOnce (S.faults out.old) (S.faults out.new) }

    // The files.
    ensures done { OnTransform (command (map string_bytes words.now)) (λ settings input output.
        (result ≡ 0) ⊎ (result ≡ 12) → Becomes (V.files vault.old) (V.files vault.new) (IsTransformed settings input output)) }
    ensures kept { (result ≡ 10) ⊎ IsRefusal result → V.files vault.new ≡ V.files vault.old }
    ensures cut { OnTransform (rewriting (spelled (map string_bytes words.now))) (λ settings input output.
        (result ≡ 9) ⊎ (result ≡ 11) → Becomes (V.files vault.old) (V.files vault.new) (IsCutShort settings input output)) }
    ensures scripts_kept { OnScript (spelled (map string_bytes words.now)) (V.files vault.new ≡ V.files vault.old) }

    // What is printed.
    ensures prints_done { OnTransform (rewriting (spelled (map string_bytes words.now))) (λ settings input output.
        result ≡ 0 → Becomes (S.taken out.old) (S.taken out.new) (PrintsDone settings (V.files vault.old) (V.files vault.new) input output)) }
    ensures prints_less { OnTransform (rewriting (spelled (map string_bytes words.now))) (λ settings input output.
        result ≡ 12 → Becomes (S.taken out.old) (S.taken out.new) (PrintsLess settings (V.files vault.old) (V.files vault.new) input output)) }
    ensures prints_memory { OnTransform (rewriting (spelled (map string_bytes words.now))) (λ settings input output.
        result ≡ 9 → Becomes (S.taken out.old) (S.taken out.new) (RunsOutOfMemory settings (V.files vault.old) (V.files vault.new) input output (S.faults out.old) (S.faults out.new))) }
    ensures prints_read { OnTransform (rewriting (spelled (map string_bytes words.now))) (λ settings input output.
        result ≡ 10 → Becomes (S.taken out.old) (S.taken out.new) (Prints (refusal_line None (read_fault input)) (S.faults out.old) (S.faults out.new))) }
    ensures prints_write { OnTransform (rewriting (spelled (map string_bytes words.now))) (λ settings input output.
        result ≡ 11 → Becomes (S.taken out.old) (S.taken out.new) (Prints (refusal_line None (write_fault output)) (S.faults out.old) (S.faults out.new))) }
    ensures prints_refusal { OnTransform (rewriting (spelled (map string_bytes words.now))) (λ settings input output.
        IsRefusal result → Becomes (S.taken out.old) (S.taken out.new) (PrintsRefusal settings (V.files vault.old) input result (S.faults out.old) (S.faults out.new))) }

    // The devices.
    ensures devices_off_scripts { OffScript (spelled (map string_bytes words.now))
        (counted_boxes seen (λ b. (⟦<dyn Device as Device>⟧ b.vtable).faults b.value) devices.new.items
        ≡ counted_boxes seen (λ b. (⟦<dyn Device as Device>⟧ b.vtable).faults b.value) devices.old.items) }
    ensures devices_refused { OffSave (spelled (map string_bytes words.now)) (result ≢ 0 → result ≢ 9 → result ≢ 12
        → counted_boxes seen (λ b. (⟦<dyn Device as Device>⟧ b.vtable).faults b.value) devices.new.items
        ≡ counted_boxes seen (λ b. (⟦<dyn Device as Device>⟧ b.vtable).faults b.value) devices.old.items) }

    // What has failed, each at most once. No count falls.
    ensures counts { CountsBy result (V.fetch_faults vault.old) (V.fetch_faults vault.new) (V.save_faults vault.old) (V.save_faults vault.new)
        (S.faults out.old) (S.faults out.new) }
    ensures fetch_faults { V.fetch_faults vault.old ≤ V.fetch_faults vault.new }
    ensures save_faults { V.save_faults vault.old ≤ V.save_faults vault.new }
    ensures sink_faults { S.faults out.old ≤ S.faults out.new }
{
    match read_words(alloc, words) {
        Err(WordsFault::Usage) => refuse(alloc, out, RefusalKind::Usage),
        Err(WordsFault::Memory) => out_of_memory(out),
        Ok(
            Command::Transform {
                settings,
                input,
                output,
            },
        ) => run_transform(alloc, vault, out, &settings, input, output),
        Ok(Command::Host { script }) => play_with(alloc, vault, out, devices, Way::Host, script),
        Ok(Command::Run { script }) => play_with(alloc, vault, out, devices, Way::Run, script),
        Ok(Command::Gen { number, output }) => run_generated(alloc, vault, out, number, output),
        Ok(
            Command::Save {
                script,
                events,
                snap,
            },
        ) => save_with(
            alloc,
            vault,
            out,
            devices,
            SaveRequest {
                script,
                events,
                snap,
            },
        ),
        Ok(Command::Continue { script, snap }) => continue_with(
            alloc, vault, out, devices, script, snap,
        ),
    }
}
