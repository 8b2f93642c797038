//! The lines of events of strands, calls that are suspended side by side in one instance.

ghost use Rattle.std.specs.Prelude.{◌≡◌, ◌++◌, IfOk, OnOk, codes};
ghost use Rattle.std.specs.Fmt.{decimal};
ghost use Rattle.script_model.specs.Transcript.{event_line};
ghost use Rattle.wa_model.specs.View.{line_of};
ghost use Rattle.transcript.specs.Printing.{names_of};
ghost use Rattle.transcript.specs.StrandLines.{strand_event_line, strand_number};

use crate::events::{Names, put_event};
use crate::parts::{put, put_number, put_with_number};
use std::alloc::{AllocError, Global};
use wa_model::Line;

/// An event of a program's strand: its line, and the strand's number, from 0.
#[derive(Drop)]
pub struct StrandLineParts {
    pub line: Line,
    pub strand: u32,
}

/// The line of an event of a strand: that of the program's event, with a dot and the strand's number behind the program's. The
/// first strand's lines are the program's own. The names are those of the strand: its entries, the length of its area.
pub fn strand_line(
    alloc: Global,
    line: &StrandLineParts,
    names: &Names,
) -> Result<Vec<u8>, AllocError>
    ensures is { IfOk result (λ text. text.items ≡ strand_event_line (names_of names.now) (line_of line.now.line) line.now.strand) }
    ensures first { line.now.strand ≡ 0 → IfOk result (λ text. text.items ≡ event_line (names_of names.now) (line_of line.now.line)) }
{
    let StrandLineParts { line, strand } = line;
    let mut text = Vec::new(alloc);
    put_number(alloc, &mut text, line.tick)?;
    put_teller(alloc, &mut text, line.program, *strand)?;
    put_event(alloc, &mut text, line.tick, &line.event, names)?;
    put(&mut text, "\n")?;
    Ok(text)
}

// The program's number and the strand's, with a space in front and behind.
fn put_teller(
    alloc: Global,
    text: &mut Vec<u8>,
    program: u32,
    strand: u32,
) -> Result<(), AllocError>
    ensures { OnOk result (text.new.items ≡ text.old.items ++ (codes " " ++ decimal program ++ strand_number strand ++ codes " ")) }
{
    put_with_number(alloc, text, " ", u64::from(program))?;
    put_strand(alloc, text, strand)?;
    put(text, " ")
}

// The number of a strand behind its program's.
fn put_strand(alloc: Global, text: &mut Vec<u8>, strand: u32) -> Result<(), AllocError>
    ensures { OnOk result (text.new.items ≡ text.old.items ++ strand_number strand) }
{
    if strand == 0 {
        return Ok(());
    }
    put_with_number(alloc, text, ".", u64::from(strand))
}
