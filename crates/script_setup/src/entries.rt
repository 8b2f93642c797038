//! The entries that lines tell, and those of all strands of a program in order.

ghost use Rattle.std.specs.Prelude.{◌≡◌, ◌++◌, [], ℕ, List, IfOk, OnOk, length, map};
ghost use Rattle.host_setup.specs.Views.{entry_of as named_entry_of};
ghost use Rattle.script_reader.specs.Views.{entry_of, program_of, strand_of};
ghost use Rattle.script_setup.specs.SetUpRules.{entries_in, entries_then, entry_line, named_entry};
ghost use Rattle.script_setup.specs.Views.{line_among};

use host_setup::Entry;
use script_reader::{EntryText, ProgramText, StrandText};
use std::alloc::{AllocError, Global};
use wa_types::Name;

/// The entries that these lines tell, in order.
pub fn copied_entries(alloc: Global, texts: &[EntryText]) -> Result<Vec<Entry>, AllocError>
    ensures { IfOk result (λ entries. map named_entry_of entries.items ≡ map named_entry (map entry_of texts.now)) }
{
    let mut entries = Vec::new(alloc);
    for text in texts {
        let entry = copied_entry(alloc, text)?;
        entries.push(entry)?;
    }
    Ok(entries)
}

fn copied_entry(alloc: Global, text: &EntryText) -> Result<Entry, AllocError>
    ensures { IfOk result (λ entry. named_entry_of entry ≡ named_entry (entry_of text.now)) }
{
    let name = Name::new(alloc, text.name.as_str())?;
    let mut args = Vec::new(alloc);
    args.extend_from_slice(&text.args)?;
    Ok(Entry { name, args })
}

/// The entries of all strands of a program, in order.
pub(crate) fn all_entries(alloc: Global, text: &ProgramText) -> Result<Vec<Entry>, AllocError>
    ensures { IfOk result (λ entries. map named_entry_of entries.items ≡ map named_entry (entries_in (program_of text.now))) }
{
    let mut entries = copied_entries(alloc, &text.entries)?;
    for strand in &text.strands {
        put_entries(alloc, &mut entries, &strand.entries)?;
    }
    Ok(entries)
}

// Puts the entries that these lines tell behind others.
fn put_entries(
    alloc: Global,
    entries: &mut Vec<Entry>,
    texts: &[EntryText],
) -> Result<(), AllocError>
    ensures { OnOk result (map named_entry_of entries.new.items ≡ map named_entry_of entries.old.items ++ map named_entry (map entry_of texts.now)) }
{
    let mut more = copied_entries(alloc, texts)?;
    entries.append(&mut more)?;
    Ok(())
}

/// The line of the entry of this number, of those of all strands in order.
pub(crate) fn entry_line(text: &ProgramText, entry: u32) -> u32
    ensures { result ≡ entry_line (program_of text.now) entry }
{
    let place = entry as usize;
    match text.entries.get(place) {
        Some(entry) => entry.line,
        None => line_behind(&text.strands, place - text.entries.len()),
    }
}

// The line of the entry at this place of those of further strands.
fn line_behind(strands: &[StrandText], place: usize) -> u32
    ensures { result ≡ line_among (entries_then [] (map strand_of strands.now)) place }
{
    let mut left = place;
    for strand in strands {
        match strand.entries.get(left) {
            Some(entry) => return entry.line,
            None => left -= strand.entries.len(),
        }
    }
    0
}
