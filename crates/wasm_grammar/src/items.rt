//! Items: the numbers, names, floats and single bytes that goals want, and what stands at the front of bytes.

ghost use Rattle.std.specs.Prelude.{◌≡◌, ◌<◌};
ghost use Rattle.wa_types.specs.Begun.{wants, first_of, a_byte, an_unsigned, a_signed, a_name, a_constant_of};
ghost use Rattle.wasm_grammar.specs.Goals.{goal_of, kind_of};
ghost use Rattle.wasm_grammar.specs.Items.{item_of, unread, FrontIs};

use crate::goals::{EntryKind, Goal, TextLen};
use wa_types::{LebFault, read_s32, read_s64, read_u32};

/// An item: what is judged as one where it stands.
#[derive(Clone, Copy)]
pub enum Item {
    Byte,
    /// An unsigned number of 32 bits (standard, section 5.2.2).
    Unsigned,
    Signed32,
    Signed64,
    /// The bytes of a name (standard, section 5.2.4).
    Text(TextLen),
    /// A float (standard, section 5.2.3).
    Float32,
    Float64,
}

/// What stands at the front of bytes.
#[derive(Clone, Copy)]
pub enum Front {
    /// A part of an item, and the end.
    Part,
    /// No item, which the last of so many bytes shows.
    Wrong { used: usize },
    /// An item of so many bytes. A number that the grammar doesn't ask for counts as 0.
    Whole { value: u32, used: usize },
}

/// The item that a goal wants.
pub fn wants(goal: Goal) -> Item
    ensures { item_of result ≡ wants (goal_of goal) }
{
    match goal {
        Goal::Size { .. }
        | Goal::Head { .. }
        | Goal::Count(_)
        | Goal::Number
        | Goal::Name
        | Goal::BulkNumber => Item::Unsigned,
        Goal::Entries(kind, _) => first_of(kind),
        Goal::Signed32 => Item::Signed32,
        Goal::Signed64 => Item::Signed64,
        Goal::NameBytes(count) => Item::Text(count),
        Goal::Float32 => Item::Float32,
        Goal::Float64 => Item::Float64,
        Goal::Exact(_)
        | Goal::Sections { .. }
        | Goal::Until(_)
        | Goal::Rest(_)
        | Goal::ValueType
        | Goal::BlockType
        | Goal::Mutable
        | Goal::ImportKind
        | Goal::Space
        | Goal::Limits
        | Goal::Code { .. } => Item::Byte,
    }
}

// The item that an entry begins with.
fn first_of(kind: EntryKind) -> Item
    ensures { item_of result ≡ first_of (kind_of kind) }
{
    match kind {
        EntryKind::Imports
        | EntryKind::Functions
        | EntryKind::Exports
        | EntryKind::Elements
        | EntryKind::Bodies
        | EntryKind::Segments
        | EntryKind::Runs
        | EntryKind::Indices => Item::Unsigned,
        EntryKind::Types
        | EntryKind::Tables
        | EntryKind::Memories
        | EntryKind::Globals
        | EntryKind::ValueTypes
        | EntryKind::Bytes => Item::Byte,
    }
}

/// What stands at the front of these bytes, where this item is wanted.
pub fn read_item(item: Item, bytes: &[u8]) -> Front
    ensures { FrontIs (item_of item) bytes.now result }
{
    match item {
        Item::Byte => byte(bytes),
        Item::Unsigned => unsigned(bytes),
        Item::Signed32 => signed32(bytes),
        Item::Signed64 => signed64(bytes),
        Item::Text(count) => text(count, bytes),
        Item::Float32 => float(4, bytes),
        Item::Float64 => float(8, bytes),
    }
}

fn byte(bytes: &[u8]) -> Front
    ensures { FrontIs a_byte bytes.now result }
{
    match bytes {
        [] => Front::Part,
        [first, ..] => Front::Whole {
            value: *first as u32,
            used: 1,
        },
    }
}

fn unsigned(bytes: &[u8]) -> Front
    ensures { FrontIs an_unsigned bytes.now result }
{
    let mut used = 0;
    match read_u32(bytes, &mut used) {
        Ok(value) => Front::Whole { value, used },
        Err(fault) => unread(fault, used),
    }
}

// Where no number was read.
fn unread(fault: LebFault, used: usize) -> Front
    ensures { result ≡ unread fault used }
{
    match fault {
        LebFault::Short => Front::Part,
        LebFault::Long | LebFault::Bits => Front::Wrong { used },
    }
}

fn signed32(bytes: &[u8]) -> Front
    ensures { FrontIs (a_signed 32) bytes.now result }
{
    let mut used = 0;
    match read_s32(bytes, &mut used) {
        Ok(_) => Front::Whole { value: 0, used },
        Err(fault) => unread(fault, used),
    }
}

fn signed64(bytes: &[u8]) -> Front
    ensures { FrontIs (a_signed 64) bytes.now result }
{
    let mut used = 0;
    match read_s64(bytes, &mut used) {
        Ok(_) => Front::Whole { value: 0, used },
        Err(fault) => unread(fault, used),
    }
}

// The bytes of a name, which are judged when all are there.
fn text(length: TextLen, bytes: &[u8]) -> Front
    ensures { FrontIs (a_name length.count) bytes.now result }
{
    let used = length.count as usize;
    if bytes.len() < used {
        return Front::Part;
    }
    match str::from_utf8(&bytes[..used]) {
        Ok(_) => Front::Whole { value: 0, used },
        Err(_) => Front::Wrong { used },
    }
}

fn float(size: u32, bytes: &[u8]) -> Front
    requires { 0 < size }
    ensures { FrontIs (a_constant_of size) bytes.now result }
{
    let used = size as usize;
    if bytes.len() < used {
        Front::Part
    } else {
        Front::Whole { value: 0, used }
    }
}
