//! The command `transform` from its files to its status.

ghost use Rattle.std.specs.Prelude.{◌≡◌, ◌⊎◌, ◌≤◌, None, IsSome};
ghost use Rattle.vault_port.specs.Counts.{FailsOnce};
ghost use Rattle.vault_port.specs.Files.{bytes_of, CannotRead};
ghost use Rattle.vault_port.specs.Told.{WhereTold, Becomes};
ghost use Rattle.script_model.specs.Transcript.{read_fault, refusal_line, write_fault};
ghost use Rattle.transcript.specs.Refused.{CountsBy, Prints};
ghost use Rattle.transform_command.specs.Ends.{IsRefusal};
ghost use Rattle.transform_command.specs.Manners.{manner_of};
ghost use Rattle.transform_command.specs.Sources.{IsTransformed};
ghost use Rattle.transform_command.specs.Transforms.{HasCause, HoldsSource, IsCutShort, PrintsRefusal, PrintsDone, PrintsLess, RunsOutOfMemory};

use crate::report::report;
use crate::transform::{TransformFault, transform};
use call_graph::Settings;
use std::alloc::Global;
use transcript::{out_of_memory, refuse, refuse_read, refuse_write};
use vault_port::{Sink, Vault};

/// `transform IN OUT`: rewrites the module in one file into another, prints a line and answers the status: 0 done; 3 to 7 by why the
/// module is refused; 9 want of memory; 10 a file that could not be read; 11 one that could not be written; 12 a sink that failed.
pub fn run_transform<V: Vault, S: Sink>(
    alloc: Global,
    vault: &mut V,
    out: &mut S,
    settings: &Settings,
    input: &str,
    output: &str,
) -> u8
    ensures status { (result ≡ 0) ⊎ IsRefusal result ⊎ (result ≡ 9) ⊎ (result ≡ 10) ⊎ (result ≡ 11) ⊎ (result ≡ 12) }

    // The causes.
    ensures read_fault { result ≡ 10 → CannotRead (V.files vault.old) input.now (V.fetch_faults vault.old) (V.fetch_faults vault.new) }
    ensures refused { IsRefusal result → HasCause (manner_of settings.now) (V.files vault.old) input.now result }
    ensures built { result ≡ 11 → WhereTold (V.files vault.old) (λ all. HoldsSource (manner_of settings.now) (bytes_of all input.now)) }
    ensures there { (result ≡ 9) ⊎ (result ≡ 10) ⊎ WhereTold (V.files vault.old) (λ all. IsSome (all input.now)) }
    ensures write_fault { result ≡ 11 → FailsOnce (V.save_faults vault.old) (V.save_faults vault.new) }
    ensures sink_fault { result ≡ 12 → FailsOnce (S.faults out.old) (S.faults out.new) }

    // The files.
    ensures done { (result ≡ 0) ⊎ (result ≡ 12) → Becomes (V.files vault.old) (V.files vault.new) (IsTransformed (manner_of settings.now) input.now output.now) }
    ensures kept { (result ≡ 10) ⊎ IsRefusal result → V.files vault.new ≡ V.files vault.old }
    ensures cut { (result ≡ 9) ⊎ (result ≡ 11) → Becomes (V.files vault.old) (V.files vault.new) (IsCutShort (manner_of settings.now) input.now output.now) }

    // What is printed.
    ensures prints_done { result ≡ 0 → Becomes (S.taken out.old) (S.taken out.new) (PrintsDone (manner_of settings.now) (V.files vault.old) (V.files vault.new) input.now output.now) }
    ensures prints_less { result ≡ 12 → Becomes (S.taken out.old) (S.taken out.new) (PrintsLess (manner_of settings.now) (V.files vault.old) (V.files vault.new) input.now output.now) }
    ensures prints_memory { result ≡ 9 → Becomes (S.taken out.old) (S.taken out.new) (RunsOutOfMemory (manner_of settings.now) (V.files vault.old) (V.files vault.new) input.now output.now (S.faults out.old) (S.faults out.new)) }
    ensures prints_read { result ≡ 10 → Becomes (S.taken out.old) (S.taken out.new) (Prints (refusal_line None (read_fault input.now)) (S.faults out.old) (S.faults out.new)) }
    ensures prints_write { result ≡ 11 → Becomes (S.taken out.old) (S.taken out.new) (Prints (refusal_line None (write_fault output.now)) (S.faults out.old) (S.faults out.new)) }
    ensures prints_refusal { IsRefusal result → Becomes (S.taken out.old) (S.taken out.new)
        (PrintsRefusal (manner_of settings.now) (V.files vault.old) input.now result (S.faults out.old) (S.faults out.new)) }

    // What has failed. No count falls.
    ensures counts { CountsBy result (V.fetch_faults vault.old) (V.fetch_faults vault.new) (V.save_faults vault.old) (V.save_faults vault.new)
        (S.faults out.old) (S.faults out.new) }
    ensures fetch_faults { V.fetch_faults vault.old ≤ V.fetch_faults vault.new }
    ensures save_faults { V.save_faults vault.old ≤ V.save_faults vault.new }
    ensures sink_faults { S.faults out.old ≤ S.faults out.new }
{
    match transform(alloc, vault, settings, input, output) {
        Ok(done) => report(alloc, out, done),
        Err(TransformFault::Memory) => out_of_memory(out),
        Err(TransformFault::Read) => refuse_read(alloc, out, input),
        Err(TransformFault::Refused(kind)) => refuse(alloc, out, kind),
        Err(TransformFault::Write) => refuse_write(alloc, out, output),
    }
}
