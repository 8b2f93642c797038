//! The command `gen` from its number to its status.

ghost use Rattle.std.specs.Prelude.{◌≡◌, ◌≢◌, ◌⊎◌, ◌≤◌, None, length, IfOk, IsErrOf, OnErr, OnOk};
ghost use Rattle.std.specs.String.{string_bytes};
ghost use Rattle.vault_port.specs.Counts.{FailsOnce, FailsAtMostOnce};
ghost use Rattle.vault_port.specs.Files.{ChangesOnly, HoldsFrontAtMost};
ghost use Rattle.vault_port.specs.Taken.{Appends, AppendsLess};
ghost use Rattle.vault_port.specs.Told.{Becomes};
ghost use Rattle.script_model.specs.Transcript.{refusal_line, write_fault};
ghost use Rattle.wa_types.specs.Encoding.{Enc};
ghost use Rattle.transcript.specs.Refused.{CountsBy, Prints, PrintsMemory};
ghost use Rattle.gen_module.specs.Generated.{generated};
ghost use Rattle.asyncify_app.specs.Playing.{PlaysGenerated};
ghost use Rattle.asyncify_app.specs.Printed.{PrintsGenerated, PrintsLess, RunsOutOfMemory, three_lines};

use crate::generated_runs::play_generated;
use crate::writing::{GenFault, write_module};
use gen_module::generate;
use std::alloc::{AllocError, Global};
use transcript::{out_of_memory, refuse_write};
use vault_port::{PutFault, Sink, Vault, put_whole};

/// The status of a sink that failed while the lines were printed.
const SINK_FAULT: u8 = 12;

/// What was written and run: how many bytes the file has, how many of its area the pause used, and the value returned.
#[derive(Clone, Copy)]
struct Done {
    bytes: usize,
    used: u32,
    value: u32,
}

/// Writes the generated module of this many functions into a file, runs it rewritten through its one pause, and prints three
/// lines. Answers the status: 0 done, 9 want of memory, 11 a file that could not be written, 12 a sink that failed.
pub fn run_generated<V: Vault, S: Sink>(
    alloc: Global,
    vault: &mut V,
    out: &mut S,
    number: u32,
    output: &str,
) -> u8
    requires least { 1 ≤ number }
    requires most { number ≤ 4000 }
    ensures status { (result ≡ 0) ⊎ (result ≡ 9) ⊎ (result ≡ 11) ⊎ (result ≡ 12) }

    // The causes.
    ensures write_fault { result ≡ 11 → FailsOnce (V.save_faults vault.old) (V.save_faults vault.new) }
    ensures sink_fault { result ≡ 12 → FailsOnce (S.faults out.old) (S.faults out.new) }

    // The files.
    ensures done { (result ≡ 0) ⊎ (result ≡ 12) → Becomes (V.files vault.old) (V.files vault.new) (ChangesOnly output.now (Enc (generated number))) }
    ensures cut { (result ≡ 9) ⊎ (result ≡ 11) → Becomes (V.files vault.old) (V.files vault.new) (HoldsFrontAtMost output.now (Enc (generated number))) }

    // What is printed.
    ensures prints_done { result ≡ 0 → Becomes (S.taken out.old) (S.taken out.new) (PrintsGenerated number) }
    ensures prints_less { result ≡ 12 → Becomes (S.taken out.old) (S.taken out.new) (PrintsLess number) }
    ensures prints_memory { result ≡ 9 → Becomes (S.taken out.old) (S.taken out.new) (RunsOutOfMemory number output.now (S.faults out.old) (S.faults out.new)) }
    ensures prints_write { result ≡ 11 → Becomes (S.taken out.old) (S.taken out.new) (Prints (refusal_line None (write_fault output.now)) (S.faults out.old) (S.faults out.new)) }

    // What has failed. No count falls.
    ensures counts { CountsBy result (V.fetch_faults vault.old) (V.fetch_faults vault.new) (V.save_faults vault.old) (V.save_faults vault.new)
        (S.faults out.old) (S.faults out.new) }
    ensures fetch_faults { V.fetch_faults vault.new ≡ V.fetch_faults vault.old }
    ensures save_faults { V.save_faults vault.old ≤ V.save_faults vault.new }
    ensures sink_faults { S.faults out.old ≤ S.faults out.new }
{
    match write_and_play(alloc, vault, number, output) {
        Ok(done) => report(alloc, out, number, done),
        Err(GenFault::Write) => refuse_write(alloc, out, output),
        Err(GenFault::Memory) => out_of_memory(out),
    }
}

/// Writes the generated module, and runs it rewritten.
fn write_and_play<V: Vault>(
    alloc: Global,
    vault: &mut V,
    number: u32,
    output: &str,
) -> Result<Done, GenFault>
    requires least { 1 ≤ number }
    requires most { number ≤ 4000 }
    ensures bytes { IfOk result (λ d. d.bytes ≡ length (Enc (generated number))) }
    ensures played { IfOk result (λ d. PlaysGenerated number d.used d.value) }
    ensures write { IsErrOf result GenFault.Write → FailsOnce (V.save_faults vault.old) (V.save_faults vault.new) }
    ensures stays { result ≢ Err GenFault.Write → V.save_faults vault.new ≡ V.save_faults vault.old }
    ensures done { OnOk result (Becomes (V.files vault.old) (V.files vault.new) (ChangesOnly output.now (Enc (generated number)))) }
    ensures cut { OnErr result (Becomes (V.files vault.old) (V.files vault.new) (HoldsFrontAtMost output.now (Enc (generated number)))) }
    ensures fetch_faults { V.fetch_faults vault.new ≡ V.fetch_faults vault.old }
    ensures save_faults { V.save_faults vault.old ≤ V.save_faults vault.new }
{
    let module = generate(alloc, number)?;
    let bytes = write_module(alloc, vault, &module, output)?;
    let played = play_generated(alloc, module)?;
    Ok(Done {
        bytes,
        used: played.used,
        value: played.value,
    })
}

/// Prints the lines of what was written and run. Answers 0, 12 after a fault of the sink, or 9.
fn report<S: Sink>(alloc: Global, out: &mut S, number: u32, done: Done) -> u8
    ensures status { (result ≡ 0) ⊎ (result ≡ 9) ⊎ (result ≡ 12) }
    ensures printed { result ≡ 0 → Becomes (S.taken out.old) (S.taken out.new) (Appends (three_lines number done.bytes done.used done.value)) }
    ensures fault { result ≡ 12 → FailsOnce (S.faults out.old) (S.faults out.new) }
    ensures once { FailsAtMostOnce (S.faults out.old) (S.faults out.new) }
    ensures stays { result ≡ 0 → S.faults out.new ≡ S.faults out.old }
    ensures less { result ≡ 12 → Becomes (S.taken out.old) (S.taken out.new) (AppendsLess (three_lines number done.bytes done.used done.value)) }
    ensures memory { result ≡ 9 → Becomes (S.taken out.old) (S.taken out.new) (PrintsMemory (three_lines number done.bytes done.used done.value) (S.faults out.old) (S.faults out.new)) }
    ensures faults { S.faults out.old ≤ S.faults out.new }
{
    let Ok(lines) = three_lines(alloc, number, done.bytes, done.used, done.value) else {
        return out_of_memory(out);
    };
    match put_whole(out, lines.as_bytes()) {
        Ok(()) => 0,
        Err(PutFault::Fault) => SINK_FAULT,
        Err(PutFault::Memory) => out_of_memory(out),
    }
}

fn three_lines(
    alloc: Global,
    number: u32,
    bytes: usize,
    used: u32,
    value: u32,
) -> Result<String, AllocError>
    ensures { IfOk result (λ lines. string_bytes lines ≡ three_lines number bytes used value) }
{
    format!(in alloc;
        "generated functions {number} bytes {bytes}\narea {used}\nresult i32:{value}\n"
    )
}
