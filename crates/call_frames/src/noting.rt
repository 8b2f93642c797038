//! Sets of locals, made again from the calls that keep each local.

ghost use Rattle.std.specs.Prelude.{◌≡◌, ◌<◌, ◌≤◌, ◌⊎◌, All, Vec, Bool, length, nat_eq, replicate, false, true, slice_set, IfOk};
ghost use Rattle.std.specs.List.{list_any};
ghost use Rattle.std.specs.declared.alloc.Global.{Global as AGlobal};
ghost use Rattle.call_frames.specs.CallRows.{numbers_in, row_views, upto};
ghost use Rattle.call_frames.specs.Classes.{MadeAgain, Noted, SizedAbove};

use crate::rows::{Calls, Row};
use std::alloc::{AllocError, Global};

/// The lesser of two numbers.
fn lesser(a: usize, b: usize) -> usize
    ensures first { result ≤ a }
    ensures second { result ≤ b }
    ensures one { (result ≡ a) ⊎ (result ≡ b) }
{
    if a < b { a } else { b }
}

/// A set has one more local.
fn put_told(set: &mut Vec<bool>, local: usize)
    requires { local < length set.old.items }
    ensures { set.new.items ≡ slice_set set.old.items local true }
{
    set[local] = true;
}

/// A local is put into the set of a call.
fn note_call(sets: &mut Vec<Vec<bool>>, call: usize, local: usize)
    requires call { call < length sets.old.items }
    requires local { SizedAbove local sets.old.items }
    ensures { Noted (nat_eq call) local sets.old.items sets.new.items }
{
    put_told(&mut sets[call], local);
}

/// It is put into those of the calls of a row, as far as there are sets.
fn note_row(sets: &mut Vec<Vec<bool>>, row: Row, local: usize)
    requires { SizedAbove local sets.old.items }
    ensures { Noted (λ k. list_any (nat_eq k) (upto row.first row.more)) local sets.old.items sets.new.items }
{
    let first = row.first as usize;
    let count = lesser(row.more as usize + 1, sets.len().saturating_sub(first));
    for step in 0..count {
        note_call(sets, first + step, local);
    }
}

/// It is put into those of the calls of rows.
fn note_rows(sets: &mut Vec<Vec<bool>>, rows: &[Row], local: usize)
    requires { SizedAbove local sets.old.items }
    ensures { Noted (λ k. list_any (nat_eq k) (numbers_in (row_views rows.now))) local sets.old.items sets.new.items }
{
    for at in 0..rows.len() {
        note_row(sets, rows[at], local);
    }
}

/// So many sets of no local, of so many.
fn no_sets(alloc: Global, count: usize, locals: usize) -> Result<Vec<Vec<bool>>, AllocError>
    ensures size { IfOk result (λ v. length v.items ≡ count) }
    ensures each { IfOk result (λ v. All (λ (set : Vec Bool AGlobal). set.items ≡ replicate locals false) v.items) }
{
    let mut sets = Vec::with_capacity(alloc, count)?;
    for _call in 0..count {
        sets.push(vec![in alloc; false; locals]?)?;
    }
    Ok(sets)
}

/// The sets of the first calls, so many of them, where these calls keep each local.
pub fn sets_from(
    alloc: Global,
    keepers: &[Calls],
    count: usize,
) -> Result<Vec<Vec<bool>>, AllocError>
    ensures { IfOk result (λ v. MadeAgain keepers.now count v.items) }
{
    let mut sets = no_sets(alloc, count, keepers.len())?;
    for local in 0..keepers.len() {
        note_rows(&mut sets, keepers[local].rows(), local);
    }
    Ok(sets)
}
