//! Single lines, over a sink that may fail.

ghost use Rattle.std.specs.Prelude.{◌≡◌, ◌≢◌, ◌≤◌, ◌<◌, IfOk, IsErrOf, OnOk, OnErr, length, map};
ghost use Rattle.std.specs.String.{string_bytes};
ghost use Rattle.vault_port.specs.Counts.{FailsOnce};
ghost use Rattle.vault_port.specs.Taken.{Appends, AppendsLess};
ghost use Rattle.vault_port.specs.Told.{Becomes};
ghost use Rattle.transcript.specs.Printing.{names_of};
ghost use Rattle.script_model.specs.Transcript.{event_line, last_line, names_at};
ghost use Rattle.wa_model.specs.View.{line_of};

use crate::events::{Names, line as line_text};
use std::alloc::{AllocError, Global};
use vault_port::{PutFault, Sink, put_whole};
use wa_model::Line;

/// Prints the line of an event of one of several programs with these names. After an error less of it was printed.
pub fn put_line<S: Sink>(
    alloc: Global,
    out: &mut S,
    names: &[Names],
    line: &Line,
) -> Result<(), PutFault>
    requires { line.now.program < length names.now }
    ensures printed { OnOk result (Becomes (S.taken out.old) (S.taken out.new) (Appends (event_line (names_at (map names_of names.now) line.now.program) (line_of line.now)))) }
    ensures less { OnErr result (Becomes (S.taken out.old) (S.taken out.new) (AppendsLess (event_line (names_at (map names_of names.now) line.now.program) (line_of line.now)))) }
    ensures fault { IsErrOf result PutFault.Fault → FailsOnce (S.faults out.old) (S.faults out.new) }
    ensures stays { result ≢ Err PutFault.Fault → S.faults out.new ≡ S.faults out.old }
    ensures faults { S.faults out.old ≤ S.faults out.new }
{
    match names.get(line.program as usize) {
        Some(own) => put_own_line(alloc, out, own, line),
        None => unreachable!(),
    }
}

// The line of a program with these names.
fn put_own_line<S: Sink>(
    alloc: Global,
    out: &mut S,
    names: &Names,
    line: &Line,
) -> Result<(), PutFault>
    ensures printed { OnOk result (Becomes (S.taken out.old) (S.taken out.new) (Appends (event_line (names_of names.now) (line_of line.now)))) }
    ensures less { OnErr result (Becomes (S.taken out.old) (S.taken out.new) (AppendsLess (event_line (names_of names.now) (line_of line.now)))) }
    ensures fault { IsErrOf result PutFault.Fault → FailsOnce (S.faults out.old) (S.faults out.new) }
    ensures stays { result ≢ Err PutFault.Fault → S.faults out.new ≡ S.faults out.old }
    ensures faults { S.faults out.old ≤ S.faults out.new }
{
    let Ok(text) = line_text(alloc, line, names) else {
        return Err(PutFault::Memory);
    };
    put_whole(out, &text)
}

/// Prints the last line of a transcript. After an error less of it was printed.
pub fn put_last<S: Sink>(
    alloc: Global,
    out: &mut S,
    programs: usize,
    events: u64,
) -> Result<(), PutFault>
    ensures printed { OnOk result (Becomes (S.taken out.old) (S.taken out.new) (Appends (last_line programs events))) }
    ensures less { OnErr result (Becomes (S.taken out.old) (S.taken out.new) (AppendsLess (last_line programs events))) }
    ensures fault { IsErrOf result PutFault.Fault → FailsOnce (S.faults out.old) (S.faults out.new) }
    ensures stays { result ≢ Err PutFault.Fault → S.faults out.new ≡ S.faults out.old }
    ensures faults { S.faults out.old ≤ S.faults out.new }
{
    let Ok(text) = last_line(alloc, programs, events) else {
        return Err(PutFault::Memory);
    };
    put_whole(out, text.as_bytes())
}

fn last_line(alloc: Global, programs: usize, events: u64) -> Result<String, AllocError>
    ensures { IfOk result (λ line. string_bytes line ≡ last_line programs events) }
{
    format!(in alloc; "programs {programs} events {events}\n")
}
