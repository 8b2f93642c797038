//! Single lines of strands, over a sink that may fail.

ghost use Rattle.std.specs.Prelude.{◌≡◌, ◌≢◌, ◌≤◌, ◌<◌, IsErrOf, OnErr, OnOk, length, map};
ghost use Rattle.vault_port.specs.Counts.{FailsOnce};
ghost use Rattle.vault_port.specs.Taken.{Appends, AppendsLess};
ghost use Rattle.vault_port.specs.Told.{Becomes};
ghost use Rattle.script_model.specs.Transcript.{names_at};
ghost use Rattle.transcript.specs.Printing.{names_of};
ghost use Rattle.transcript.specs.StrandLines.{strand_event_line};
ghost use Rattle.strand_host.specs.StrandCalls.{strand_line_of};
ghost use Rattle.script_command.specs.StrandParts.{HasNames, names_in};
ghost use Rattle.script_command.specs.StrandTranscripts.{named_strand_line, program_line};

use std::alloc::Global;
use strand_host::StrandLine;
use transcript::{Names, StrandLineParts, strand_line};
use vault_port::{PutFault, Sink, put_whole};
use wa_model::Line;

/// Prints the line of an event of a strand of one of several programs, whose strands have these names. After an error less of it was
/// printed.
pub(crate) fn put_strand_line<S: Sink>(
    alloc: Global,
    out: &mut S,
    names: &[Vec<Names>],
    line: StrandLine,
) -> Result<(), PutFault>
    requires { HasNames names.now line.program line.strand }
    ensures printed { OnOk result (Becomes (S.taken out.old) (S.taken out.new) (Appends (named_strand_line (map names_in names.now) (strand_line_of line)))) }
    ensures less { OnErr result (Becomes (S.taken out.old) (S.taken out.new) (AppendsLess (named_strand_line (map names_in names.now) (strand_line_of line)))) }
    ensures fault { IsErrOf result PutFault.Fault → FailsOnce (S.faults out.old) (S.faults out.new) }
    ensures stays { result ≢ Err PutFault.Fault → S.faults out.new ≡ S.faults out.old }
    ensures faults { S.faults out.old ≤ S.faults out.new }
{
    match names.get(line.program as usize) {
        Some(own) => put_line_by(alloc, out, own, line),
        None => unreachable!(),
    }
}

// The line of a strand of a program whose strands have these names.
fn put_line_by<S: Sink>(
    alloc: Global,
    out: &mut S,
    names: &[Names],
    line: StrandLine,
) -> Result<(), PutFault>
    requires { line.strand < length names.now }
    ensures printed { OnOk result (Becomes (S.taken out.old) (S.taken out.new)
        (Appends (strand_event_line (names_at (map names_of names.now) line.strand) (program_line (strand_line_of line)) line.strand))) }
    ensures less { OnErr result (Becomes (S.taken out.old) (S.taken out.new)
        (AppendsLess (strand_event_line (names_at (map names_of names.now) line.strand) (program_line (strand_line_of line)) line.strand))) }
    ensures fault { IsErrOf result PutFault.Fault → FailsOnce (S.faults out.old) (S.faults out.new) }
    ensures stays { result ≢ Err PutFault.Fault → S.faults out.new ≡ S.faults out.old }
    ensures faults { S.faults out.old ≤ S.faults out.new }
{
    match names.get(line.strand as usize) {
        Some(own) => put_own_line(alloc, out, own, line),
        None => unreachable!(),
    }
}

// The line of a strand with these names.
fn put_own_line<S: Sink>(
    alloc: Global,
    out: &mut S,
    names: &Names,
    line: StrandLine,
) -> Result<(), PutFault>
    ensures printed { OnOk result (Becomes (S.taken out.old) (S.taken out.new)
        (Appends (strand_event_line (names_of names.now) (program_line (strand_line_of line)) line.strand))) }
    ensures less { OnErr result (Becomes (S.taken out.old) (S.taken out.new)
        (AppendsLess (strand_event_line (names_of names.now) (program_line (strand_line_of line)) line.strand))) }
    ensures fault { IsErrOf result PutFault.Fault → FailsOnce (S.faults out.old) (S.faults out.new) }
    ensures stays { result ≢ Err PutFault.Fault → S.faults out.new ≡ S.faults out.old }
    ensures faults { S.faults out.old ≤ S.faults out.new }
{
    let StrandLine {
        tick,
        program,
        strand,
        event,
    } = line;
    let parts = StrandLineParts {
        line: Line {
            tick,
            program,
            event,
        },
        strand,
    };
    let Ok(text) = strand_line(alloc, &parts, names) else {
        return Err(PutFault::Memory);
    };
    put_whole(out, &text)
}
