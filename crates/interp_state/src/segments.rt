//! The values of initialisers and offsets, and the element and data segments, tested and written (standard, section 4.5.4).

ghost use Rattle.std.specs.Prelude.{◌≡◌, ◌≤◌, ◌+◌, ◌<◌, ◌++◌, IfOk, IfSome, OnOk, Some, None, length, map, take, drop, nat_le};
ghost use Rattle.wa_types.specs.View.{code};
ghost use Rattle.wa_model.specs.Instantiation.{constant_value, place_at, first_out, put_piece, put_pieces};
ghost use Rattle.interp_state.specs.Making.{elem_piece_of, byte_piece_of, value_of_global};

use crate::values::value_at;
use page_memory::Pages;
use std::alloc::{AllocError, Global};
use wa_types::{Elem, GlobalDef, Instr, Segment, Value};

/// The value of an initialiser or an offset: a constant, or that of a global (standard, section 3.3.7).
pub fn constant_value(globals: &[Value], init: &[Instr]) -> Value
    ensures { result ≡ constant_value globals.now (code init.now) }
{
    let Some((first, rest)) = init.split_first() else {
        return Value::I32(0);
    };
    if !rest.is_empty() {
        return Value::I32(0);
    }
    match first {
        Instr::Const(v) => *v,
        Instr::GlobalGet(x) => value_at(globals, *x),
        _ => Value::I32(0),
    }
}

/// The values of the defined globals, whose initialisers see the imported ones.
pub fn defined_values(
    alloc: Global,
    imports: &[Value],
    globals: &[GlobalDef],
) -> Result<Vec<Value>, AllocError>
    ensures { IfOk result (λ v. v.items ≡ map (value_of_global imports.now) globals.now) }
{
    globals
        .iter()
        .map(|global| constant_value(imports, &global.init))
        .collect(alloc)
}

/// Where a segment begins.
fn place_of(globals: &[Value], offset: &[Instr]) -> u64
    ensures { result ≡ place_at globals.now (code offset.now) }
{
    match constant_value(globals, offset) {
        Value::I32(n) => u64::from(n),
        Value::I64(n) => n,
    }
}

/// Whether so many items fit from a place on.
fn fits(at: u64, len: usize, size: usize) -> bool
    ensures { result ≡ nat_le (at + len) size }
{
    match size.checked_sub(len) {
        Some(last) => at <= last as u64,
        None => false,
    }
}

fn elem_fits(globals: &[Value], elem: &Elem, size: usize) -> bool
    ensures { result ≡ nat_le ((elem_piece_of globals.now elem.now).at + length (elem_piece_of globals.now elem.now).items) size }
{
    fits(place_of(globals, &elem.offset), elem.funcs.len(), size)
}

fn segment_fits(globals: &[Value], segment: &Segment, size: usize) -> bool
    ensures { result ≡ nat_le ((byte_piece_of globals.now segment.now).at + length (byte_piece_of globals.now segment.now).items) size }
{
    fits(
        place_of(globals, &segment.offset),
        segment.bytes.len(),
        size,
    )
}

/// The first element segment that doesn't fit the table.
#[tactic(auto, using(crate::proofs::MakeLemmas::outing))]
pub fn elem_out(globals: &[Value], elems: &[Elem], size: usize) -> Option<usize>
    ensures first { result ≡ first_out size 0 (map (elem_piece_of globals.now) elems.now) }
    ensures within { IfSome result (λ i. i < length elems.now) }
{
    for (i, elem) in elems.iter().enumerate() {
        if !elem_fits(globals, elem, size) {
            return Some(i);
        }
    }
    None
}

/// The first data segment that doesn't fit the memory.
#[tactic(auto, using(crate::proofs::MakeLemmas::outing))]
pub fn segment_out(globals: &[Value], segments: &[Segment], size: usize) -> Option<usize>
    ensures first { result ≡ first_out size 0 (map (byte_piece_of globals.now) segments.now) }
    ensures within { IfSome result (λ i. i < length segments.now) }
{
    for (i, segment) in segments.iter().enumerate() {
        if !segment_fits(globals, segment, size) {
            return Some(i);
        }
    }
    None
}

/// Puts a piece into a table, where it fits.
fn put(table: &mut Vec<Option<u32>>, at: usize, piece: &[Option<u32>])
    requires { at + length piece.now ≤ length table.now.items }
    ensures { table.new.items ≡ take at table.old.items ++ piece.now ++ drop (at + length piece.now) table.old.items }
{
    table[at..at + piece.len()].copy_from_slice(piece);
}

/// The elements that a segment writes.
fn elements(alloc: Global, funcs: &[u32]) -> Result<Vec<Option<u32>>, AllocError>
    ensures { IfOk result (λ v. v.items ≡ map (λ x. Some x) funcs.now) }
{
    funcs.iter().map(|func| Some(*func)).collect(alloc)
}

/// Writes the element segments in order, all of which fit.
pub fn put_elems(
    alloc: Global,
    globals: &[Value],
    elems: &[Elem],
    table: &mut Vec<Option<u32>>,
) -> Result<(), AllocError>
    requires { first_out (length table.now.items) 0 (map (elem_piece_of globals.now) elems.now) ≡ None }
    ensures { OnOk result (table.new.items ≡ put_pieces table.old.items (map (elem_piece_of globals.now) elems.now)) }
{
    for elem in elems {
        let piece = elements(alloc, &elem.funcs)?;
        put(table, place_of(globals, &elem.offset) as usize, &piece);
    }
    Ok(())
}

/// Writes the data segments in order, all of which fit.
pub fn put_segments(globals: &[Value], segments: &[Segment], memory: &mut Pages)
    requires { first_out (length memory.now.bytes) 0 (map (byte_piece_of globals.now) segments.now) ≡ None }
    ensures bytes { memory.new.bytes ≡ put_pieces memory.old.bytes (map (byte_piece_of globals.now) segments.now) }
    ensures max { memory.new.max ≡ memory.old.max }
{
    for segment in segments {
        let _ = memory.write(place_of(globals, &segment.offset), &segment.bytes);
    }
}
