//! What is printed of a module that was written.

ghost use Rattle.std.specs.Prelude.{◌≡◌, ◌⊎◌, ◌≤◌, IfOk};
ghost use Rattle.std.specs.String.{string_bytes};
ghost use Rattle.vault_port.specs.Counts.{FailsOnce, FailsAtMostOnce};
ghost use Rattle.vault_port.specs.Told.{Becomes};
ghost use Rattle.vault_port.specs.Taken.{Appends, AppendsLess};
ghost use Rattle.transcript.specs.Refused.{PrintsMemory};
ghost use Rattle.transform_command.specs.Transforms.{done_line};

use crate::transform::Done;
use std::alloc::{AllocError, Global};
use transcript::out_of_memory;
use vault_port::{PutFault, Sink, put_whole};

/// The status of a sink that failed while accepted output was printed.
const SINK_FAULT: u8 = 12;

/// Prints the line of a module that was written. Answers 0, 12 after a fault of the sink, or 9.
pub fn report<S: Sink>(alloc: Global, out: &mut S, done: Done) -> u8
    ensures status { (result ≡ 0) ⊎ (result ≡ 9) ⊎ (result ≡ 12) }
    ensures printed { result ≡ 0 → Becomes (S.taken out.old) (S.taken out.new)
        (Appends (done_line done.functions done.instrumented done.bytes)) }
    ensures fault { result ≡ 12 → FailsOnce (S.faults out.old) (S.faults out.new) }
    ensures once { FailsAtMostOnce (S.faults out.old) (S.faults out.new) }
    ensures stays { result ≡ 0 → S.faults out.new ≡ S.faults out.old }
    ensures less { result ≡ 12 → Becomes (S.taken out.old) (S.taken out.new)
        (AppendsLess (done_line done.functions done.instrumented done.bytes)) }
    ensures memory { result ≡ 9 → Becomes (S.taken out.old) (S.taken out.new)
        (PrintsMemory (done_line done.functions done.instrumented done.bytes) (S.faults out.old) (S.faults out.new)) }
    ensures faults { S.faults out.old ≤ S.faults out.new }
{
    let Ok(line) = done_line(alloc, done.functions, done.instrumented, done.bytes) else {
        return out_of_memory(out);
    };
    match put_whole(out, line.as_bytes()) {
        Ok(()) => 0,
        Err(PutFault::Fault) => SINK_FAULT,
        Err(PutFault::Memory) => out_of_memory(out),
    }
}

fn done_line(
    alloc: Global,
    functions: usize,
    instrumented: usize,
    bytes: usize,
) -> Result<String, AllocError>
    ensures { IfOk result (λ line. string_bytes line ≡ done_line functions instrumented bytes) }
{
    format!(in alloc; "ok functions {functions} instrumented {instrumented} bytes {bytes}\n")
}
