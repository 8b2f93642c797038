//! A refusal's line, over a sink that may fail.

ghost use Rattle.std.specs.Prelude.{◌≡◌, ◌≢◌, ◌⊎◌, ◌≤◌, None};
ghost use Rattle.vault_port.specs.Counts.{FailsAtMostOnce};
ghost use Rattle.vault_port.specs.Told.{Becomes};
ghost use Rattle.script_model.specs.Transcript.{read_fault, refusal_line, write_fault};
ghost use Rattle.transcript.specs.Printing.{refusal_of};
ghost use Rattle.transcript.specs.Refused.{EndsInMemory, Prints, PrintsMemory, status_of};

use crate::refusals::{Refusal, RefusalKind, fault_line};
use std::alloc::Global;
use vault_port::{PutFault, Sink, put_whole};
use wa_types::Name;

/// The status of want of memory.
const MEMORY: u8 = 9;

/// Prints that memory is wanting, as far as the sink takes it. Answers 9.
pub fn out_of_memory<S: Sink>(out: &mut S) -> u8
    ensures status { result ≡ 9 }
    ensures printed { Becomes (S.taken out.old) (S.taken out.new) (EndsInMemory (S.faults out.old) (S.faults out.new)) }
    ensures once { FailsAtMostOnce (S.faults out.old) (S.faults out.new) }
    ensures faults { S.faults out.old ≤ S.faults out.new }
{
    let _ = put_whole(out, b"out of memory\n");
    MEMORY
}

/// Prints the line of a refusal. Answers its status, which a fault of the sink leaves, or 9 for want of memory.
pub fn refuse<S: Sink>(alloc: Global, out: &mut S, kind: RefusalKind) -> u8
    requires { status_of (refusal_of kind) ≢ 9 }
    ensures status { (result ≡ status_of (refusal_of kind)) ⊎ (result ≡ 9) }
    ensures printed { result ≡ status_of (refusal_of kind) → Becomes (S.taken out.old) (S.taken out.new)
        (Prints (refusal_line None (refusal_of kind)) (S.faults out.old) (S.faults out.new)) }
    ensures memory { result ≡ 9 → Becomes (S.taken out.old) (S.taken out.new)
        (PrintsMemory (refusal_line None (refusal_of kind)) (S.faults out.old) (S.faults out.new)) }
    ensures once { FailsAtMostOnce (S.faults out.old) (S.faults out.new) }
    ensures faults { S.faults out.old ≤ S.faults out.new }
{
    refuse_program(alloc, out, None, kind)
}

/// Prints the line of a refusal, as `refuse` does; of the program of this number, where one is told.
pub fn refuse_program<S: Sink>(
    alloc: Global,
    out: &mut S,
    program: Option<u32>,
    kind: RefusalKind,
) -> u8
    requires { status_of (refusal_of kind) ≢ 9 }
    ensures status { (result ≡ status_of (refusal_of kind)) ⊎ (result ≡ 9) }
    ensures printed { result ≡ status_of (refusal_of kind) → Becomes (S.taken out.old) (S.taken out.new)
        (Prints (refusal_line program (refusal_of kind)) (S.faults out.old) (S.faults out.new)) }
    ensures memory { result ≡ 9 → Becomes (S.taken out.old) (S.taken out.new)
        (PrintsMemory (refusal_line program (refusal_of kind)) (S.faults out.old) (S.faults out.new)) }
    ensures once { FailsAtMostOnce (S.faults out.old) (S.faults out.new) }
    ensures faults { S.faults out.old ≤ S.faults out.new }
{
    let status = status_of(&kind);
    let refusal = Refusal { program, kind };
    match fault_line(alloc, &refusal) {
        Ok(line) => put_refusal(out, status, &line),
        Err(_) => out_of_memory(out),
    }
}

/// Prints that the file of this name couldn't be read, as `refuse` does.
pub fn refuse_read<S: Sink>(alloc: Global, out: &mut S, name: &str) -> u8
    ensures status { (result ≡ 10) ⊎ (result ≡ 9) }
    ensures printed { result ≡ 10 → Becomes (S.taken out.old) (S.taken out.new)
        (Prints (refusal_line None (read_fault name.now)) (S.faults out.old) (S.faults out.new)) }
    ensures memory { result ≡ 9 → Becomes (S.taken out.old) (S.taken out.new)
        (PrintsMemory (refusal_line None (read_fault name.now)) (S.faults out.old) (S.faults out.new)) }
    ensures once { FailsAtMostOnce (S.faults out.old) (S.faults out.new) }
    ensures faults { S.faults out.old ≤ S.faults out.new }
{
    match Name::new(alloc, name) {
        Ok(name) => refuse(alloc, out, RefusalKind::ReadFault { name }),
        Err(_) => out_of_memory(out),
    }
}

/// Prints that the file of this name couldn't be written, as `refuse` does.
pub fn refuse_write<S: Sink>(alloc: Global, out: &mut S, name: &str) -> u8
    ensures status { (result ≡ 11) ⊎ (result ≡ 9) }
    ensures printed { result ≡ 11 → Becomes (S.taken out.old) (S.taken out.new)
        (Prints (refusal_line None (write_fault name.now)) (S.faults out.old) (S.faults out.new)) }
    ensures memory { result ≡ 9 → Becomes (S.taken out.old) (S.taken out.new)
        (PrintsMemory (refusal_line None (write_fault name.now)) (S.faults out.old) (S.faults out.new)) }
    ensures once { FailsAtMostOnce (S.faults out.old) (S.faults out.new) }
    ensures faults { S.faults out.old ≤ S.faults out.new }
{
    match Name::new(alloc, name) {
        Ok(name) => refuse(alloc, out, RefusalKind::WriteFault { name }),
        Err(_) => out_of_memory(out),
    }
}

fn put_refusal<S: Sink>(out: &mut S, status: u8, line: &[u8]) -> u8
    requires { status ≢ 9 }
    ensures status { (result ≡ status) ⊎ (result ≡ 9) }
    ensures printed { result ≡ status → Becomes (S.taken out.old) (S.taken out.new)
        (Prints line.now (S.faults out.old) (S.faults out.new)) }
    ensures memory { result ≡ 9 → Becomes (S.taken out.old) (S.taken out.new) (PrintsMemory line.now (S.faults out.old) (S.faults out.new)) }
    ensures once { FailsAtMostOnce (S.faults out.old) (S.faults out.new) }
    ensures faults { S.faults out.old ≤ S.faults out.new }
{
    match put_whole(out, line) {
        Ok(()) | Err(PutFault::Fault) => status,
        Err(PutFault::Memory) => out_of_memory(out),
    }
}

fn status_of(kind: &RefusalKind) -> u8
    ensures { result ≡ status_of (refusal_of kind.now) }
{
    match kind {
        RefusalKind::Usage => 2,
        RefusalKind::Malformed { .. } => 3,
        RefusalKind::Float { .. } => 4,
        RefusalKind::Invalid { .. } => 5,
        RefusalKind::Limit { .. } => 6,
        RefusalKind::Nesting { .. } => 6,
        RefusalKind::Reserved { .. } => 7,
        RefusalKind::Script { .. } => 8,
        RefusalKind::OutOfMemory => MEMORY,
        RefusalKind::ReadFault { .. } => 10,
        RefusalKind::WriteFault { .. } => 11,
        RefusalKind::LimitSnapshot { .. } => 6,
        RefusalKind::SnapshotRefused => 13,
    }
}
