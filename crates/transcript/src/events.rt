//! The lines of events.

ghost use Rattle.std.specs.Prelude.{◌≡◌, ◌++◌, IfOk, OnOk, codes};
ghost use Rattle.std.specs.Fmt.{decimal};
ghost use Rattle.std.specs.Option.{option_map};
ghost use Rattle.script_model.specs.Transcript.{event_line, event_text, pause_text, printed_name, returned_value, said_text, shown_bytes};
ghost use Rattle.wa_model.specs.View.{event_of, line_of};
ghost use Rattle.transcript.specs.Printing.{names_of};

use crate::ends::{put_area, put_end};
use crate::parts::{
    name_of, put, put_bytes, put_number, put_value, put_value_or_none, put_values, put_with_name,
    put_with_number, put_with_wide_number,
};
use std::alloc::{AllocError, Global};
use wa_model::{Event, Line, Said};
use wa_types::{Name, Value};

/// What is named in a program's lines: its function imports, joined, its entries, and the length of its area in bytes.
#[derive(Drop)]
pub struct Names {
    pub imports: Vec<Name>,
    pub entries: Vec<Name>,
    pub len: u32,
}

/// The line of an event: the tick, the program's number and the event's text.
pub fn line(alloc: Global, line: &Line, names: &Names) -> Result<Vec<u8>, AllocError>
    ensures { IfOk result (λ text. text.items ≡ event_line (names_of names.now) (line_of line.now)) }
{
    let mut text = Vec::new(alloc);
    put_times(alloc, &mut text, line.tick, line.program)?;
    put_event(alloc, &mut text, line.tick, &line.event, names)?;
    put(&mut text, "\n")?;
    Ok(text)
}

// The tick and the program's number, a space behind each.
fn put_times(alloc: Global, text: &mut Vec<u8>, tick: u64, program: u32) -> Result<(), AllocError>
    ensures { OnOk result (text.new.items ≡ text.old.items ++ (decimal tick ++ codes " " ++ decimal program ++ codes " ")) }
{
    put_number(alloc, text, tick)?;
    put_with_number(alloc, text, " ", u64::from(program))?;
    put(text, " ")
}

// The text of an event that began at this tick.
pub(crate) fn put_event(
    alloc: Global,
    text: &mut Vec<u8>,
    tick: u64,
    event: &Event,
    names: &Names,
) -> Result<(), AllocError>
    ensures { OnOk result (text.new.items ≡ text.old.items ++ event_text (names_of names.now) tick (event_of event.now)) }
{
    match event {
        Event::Called(call) => {
            put_with_name(text, "call ", name_of(&names.imports, call.import))?;
            put_values(alloc, text, &call.args)
        }
        Event::Answered(said) => {
            put(text, "answer ")?;
            put_said(alloc, text, *said)
        }
        Event::Paused { ticks, used } => put_pause(
            alloc,
            text,
            u128::from(tick) + u128::from(*ticks),
            *used,
            names.len,
        ),
        Event::Parked { used } => {
            put(text, "park ")?;
            put_area(alloc, text, *used, names.len)
        }
        Event::Returned { entry, value } => {
            put_return(alloc, text, name_of(&names.entries, *entry), *value)
        }
        Event::Ended(how) => {
            put(text, "end ")?;
            put_end(alloc, text, how, &names.imports)
        }
        Event::Shown { at, bytes } => {
            put_with_number(alloc, text, "memory ", u64::from(*at))?;
            put(text, " ")?;
            put_shown(text, bytes)
        }
    }
}

// What an import's call was told.
fn put_said(alloc: Global, text: &mut Vec<u8>, said: Said) -> Result<(), AllocError>
    ensures { OnOk result (text.new.items ≡ text.old.items ++ said_text said) }
{
    match said {
        Said::Value(value) => put_value_or_none(alloc, text, value),
        Said::Trap => put(text, "trap"),
    }
}

// The text of a pause until this tick.
fn put_pause(
    alloc: Global,
    text: &mut Vec<u8>,
    due: u128,
    used: u32,
    len: u32,
) -> Result<(), AllocError>
    ensures { OnOk result (text.new.items ≡ text.old.items ++ pause_text due used len) }
{
    put_with_wide_number(alloc, text, "pause until ", due)?;
    put(text, " ")?;
    put_area(alloc, text, used, len)
}

// The text of an entry's return.
fn put_return(
    alloc: Global,
    text: &mut Vec<u8>,
    entry: &str,
    value: Option<Value>,
) -> Result<(), AllocError>
    ensures { OnOk result (text.new.items ≡ text.old.items ++ (codes "return " ++ printed_name entry.now ++ returned_value value)) }
{
    put_with_name(text, "return ", entry)?;
    put_returned(alloc, text, value)
}

// The value of an entry's return behind a space, where it has one.
fn put_returned(alloc: Global, text: &mut Vec<u8>, value: Option<Value>) -> Result<(), AllocError>
    ensures { OnOk result (text.new.items ≡ text.old.items ++ returned_value value) }
{
    match value {
        None => Ok(()),
        Some(value) => {
            put(text, " ")?;
            put_value(alloc, text, value)
        }
    }
}

// Shown bytes, or `absent`.
fn put_shown(text: &mut Vec<u8>, bytes: &Option<Vec<u8>>) -> Result<(), AllocError>
    ensures { OnOk result (text.new.items ≡ text.old.items ++ shown_bytes (option_map (λ b. b.items) bytes.now)) }
{
    match bytes {
        None => put(text, "absent"),
        Some(bytes) => put_bytes(text, bytes),
    }
}
