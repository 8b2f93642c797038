//! Runs of short items, taken at once. They stop before the end of a content.

ghost use Rattle.std.specs.Prelude.{ℕ, true, false, ◌≡◌, ◌+◌, ◌-◌, ◌*◌, ◌<◌, ◌≤◌, length, take, drop, get_or, IfSome};
ghost use Rattle.std.specs.Bool.{OnTrue};
ghost use Rattle.wa_types.specs.Opcodes.{is_block_type, is_float_op, is_float_type, is_value_type};
ghost use Rattle.wasm_grammar.specs.Goals.{kind_of};
ghost use Rattle.wasm_grammar.specs.Passing.{IsShort, AreShort, Passes, Opens, Closes, PassesEntries, IsEntryByte, PassesRuns, IsShortRun};

use crate::goals::EntryKind;
use crate::opcodes::{ImmediateForm, immediate_form};
use crate::window::Window;

// The place behind a number of at most four bytes, which isn't judged: all of its bits are within its width.
#[inline(always)]
fn behind_number(bytes: &Window<'_>, at: usize, stop: usize) -> Option<usize>
    requires from { bytes.now.base ≤ at }
    requires stop { stop ≤ length bytes.now.all }
    requires room { at + 1 < stop }
    ensures ahead { IfSome result (λ end. (at < end) × (end < stop)) }
    ensures short { IfSome result (λ end. IsShort 4 (take (end - at) (drop at bytes.now.all))) }
{
    if bytes.at(at) < 128 {
        return Some(at + 1);
    }
    if stop - at < 5 {
        return None;
    }
    if bytes.at(at + 1) < 128 {
        return Some(at + 2);
    }
    if bytes.at(at + 2) < 128 {
        return Some(at + 3);
    }
    if bytes.at(at + 3) < 128 {
        Some(at + 4)
    } else {
        None
    }
}

// The place behind two numbers of at most four bytes.
#[inline(always)]
fn behind_numbers(bytes: &Window<'_>, at: usize, stop: usize) -> Option<usize>
    requires from { bytes.now.base ≤ at }
    requires stop { stop ≤ length bytes.now.all }
    requires room { at + 1 < stop }
    ensures ahead { IfSome result (λ end. (at < end) × (end < stop)) }
    ensures short { IfSome result (λ end. AreShort bytes.now.all at end) }
{
    let second = behind_number(bytes, at, stop)?;
    if stop - second < 2 {
        return None;
    }
    behind_number(bytes, second, stop)
}

// Whether this opcode is of no floats. Some rare ones that aren't either are told as if they were, and go item by item.
#[inline(always)]
fn is_integer_op(op: u8) -> bool
    ensures { OnTrue result (is_float_op op ≡ false) }
{
    match op {
        0x00..=0x29 => true,
        0x2C..=0x37 => true,
        0x3A..=0x42 => true,
        0x45..=0x5A => true,
        0x67..=0x8A => true,
        _ => false,
    }
}

// Where the instruction that begins here ends, if it holds no other and is of no floats, and each of its numbers is short.
#[inline(always)]
fn short_end(bytes: &Window<'_>, at: usize, stop: usize) -> Option<usize>
    requires from { bytes.now.base ≤ at }
    requires stop { stop ≤ length bytes.now.all }
    ensures ahead { IfSome result (λ end. (at < end) × (end < stop)) }
    ensures passes { IfSome result (λ end. Passes bytes.now.all at end stop) }
{
    if stop.saturating_sub(at) < 3 {
        return None;
    }
    let op = bytes.at(at);
    if !is_integer_op(op) {
        return None;
    }
    match immediate_form(op)? {
        ImmediateForm::Nothing => Some(at + 1),
        ImmediateForm::Index => behind_number(bytes, at + 1, stop),
        ImmediateForm::Constant32 => behind_number(bytes, at + 1, stop),
        ImmediateForm::Constant64 => behind_number(bytes, at + 1, stop),
        ImmediateForm::Access => behind_numbers(bytes, at + 1, stop),
        _ => None,
    }
}

/// Passes over short instructions (standard, sections 5.4.1 to 5.4.5): the place behind them.
#[inline]
pub(crate) fn pass_short(bytes: &Window<'_>, at: usize, stop: usize) -> usize
    requires from { bytes.now.base ≤ at }
    requires stop { stop ≤ length bytes.now.all }
    ensures ahead { at ≤ result }
    ensures passes { Passes bytes.now.all at result stop }
{
    let mut place = at;
    while let Some(end) = short_end(bytes, place, stop) {
        place = end;
    }
    place
}

// Whether this byte is the result of a construct (standard, section 5.3.2), and no float.
fn is_block_type(byte: u8) -> bool
    ensures { OnTrue result ((is_block_type byte ≡ true) × (is_float_type byte ≡ false)) }
{
    byte == 0x40 || is_integer_type(byte)
}

/// Whether an else may stand in the level that a construct opens here (standard, section 5.4.1), if one does.
#[inline]
pub(crate) fn opened(bytes: &Window<'_>, at: usize, stop: usize) -> Option<bool>
    requires from { bytes.now.base ≤ at }
    requires stop { stop ≤ length bytes.now.all }
    ensures room { IfSome result (λ inner. at + 2 < stop) }
    ensures opens { IfSome result (λ inner. Opens bytes.now.all at inner stop) }
{
    if stop.saturating_sub(at) < 3 {
        return None;
    }
    let ty = bytes.at(at + 1);
    if !is_block_type(ty) {
        return None;
    }
    let op = bytes.at(at);
    match op {
        0x02 => Some(false),
        0x03 => Some(false),
        0x04 => Some(true),
        _ => None,
    }
}

/// Whether an end stands here.
#[inline]
pub(crate) fn closes(bytes: &Window<'_>, at: usize, stop: usize) -> bool
    requires from { bytes.now.base ≤ at }
    requires stop { stop ≤ length bytes.now.all }
    ensures room { OnTrue result (at + 1 < stop) }
    ensures closes { OnTrue result (Closes bytes.now.all at stop) }
{
    if stop.saturating_sub(at) < 2 {
        return false;
    }
    let op = bytes.at(at);
    op == 0x0B
}

// Whether this byte is a value type (standard, section 5.3.1), and no float.
#[inline(always)]
fn is_integer_type(byte: u8) -> bool
    ensures { OnTrue result ((is_value_type byte ≡ true) × (is_float_type byte ≡ false)) }
{
    0x7E <= byte && byte <= 0x7F
}

// Whether an entry is this byte alone.
#[inline(always)]
fn is_entry_byte(kind: EntryKind, byte: u8) -> bool
    ensures { OnTrue result (IsEntryByte (kind_of kind) byte) }
{
    match kind {
        EntryKind::Bytes => true,
        EntryKind::Indices => byte < 128,
        EntryKind::Functions => byte < 128,
        EntryKind::ValueTypes => is_integer_type(byte),
        _ => false,
    }
}

/// How many entries of so many can be passed over, each of one byte, with one left.
#[inline]
pub(crate) fn short_entries(
    kind: EntryKind,
    n: u32,
    bytes: &Window<'_>,
    at: usize,
    stop: usize,
) -> u32
    requires from { bytes.now.base ≤ at }
    requires stop { stop ≤ length bytes.now.all }
    ensures room { 0 < result → at + result < stop }
    ensures fewer { result ≤ n }
    ensures passes { PassesEntries bytes.now.all (kind_of kind) n at result stop }
{
    let room = stop.saturating_sub(at).saturating_sub(1);
    let most = room.min(n.saturating_sub(1) as usize);
    for index in 0..most {
        let byte = bytes.at(at + index);
        if !is_entry_byte(kind, byte) {
            return index as u32;
        }
    }
    most as u32
}

// Whether these two bytes are a run of fewer than 128 locals (standard, section 5.5.13).
#[inline(always)]
fn is_short_run(count: u8, ty: u8) -> bool
    ensures { OnTrue result (IsShortRun count ty) }
{
    count < 128 && is_integer_type(ty)
}

/// How many runs of so many can be passed over, each of two bytes, with one left.
#[inline]
pub(crate) fn short_runs(n: u32, bytes: &Window<'_>, at: usize, stop: usize) -> u32
    requires from { bytes.now.base ≤ at }
    requires stop { stop ≤ length bytes.now.all }
    ensures room { 0 < result → at + 2 * result < stop }
    ensures fewer { result ≤ n }
    ensures passes { PassesRuns bytes.now.all n at result stop }
{
    let room = stop.saturating_sub(at).saturating_sub(1) / 2;
    let most = room.min(n.saturating_sub(1) as usize);
    for index in 0..most {
        let count = bytes.at(at + 2 * index);
        let ty = bytes.at(at + 2 * index + 1);
        if !is_short_run(count, ty) {
            return index as u32;
        }
    }
    most as u32
}
