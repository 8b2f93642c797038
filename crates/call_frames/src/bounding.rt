//! The least length that classes of calls may have, before they are made.
//!
//! How many locals each call keeps is known from the ends of rows, without a set for each call. What is summed up so is a guess, which no
//! contract speaks of: it's bounded by what calls keep together.

ghost use Rattle.std.specs.Prelude.{◌≡◌, ◌≤◌, ◌*◌, List, length, IfOk, Bool};
ghost use Rattle.wa_types.specs.declared.values.ValType.{ValType};
ghost use Rattle.call_frames.specs.CallRows.{numbers_in, row_views};
ghost use Rattle.call_frames.specs.Classes.{AreKept, calls_total};
ghost use Rattle.call_frames.specs.Views.{kept_total};

use crate::rows::{Calls, Row};
use std::alloc::{AllocError, Global};

/// How many calls rows stand for, as far as it is counted.
fn rows_total(rows: &[Row]) -> u64
    ensures { result ≤ length (numbers_in (row_views rows.now)) }
{
    let mut total: u64 = 0;
    for at in 0..rows.len() {
        total = total.saturating_add(rows[at].more as u64 + 1);
    }
    total
}

/// How many locals calls keep together, as far as it is counted.
fn kept_together(keepers: &[Calls]) -> u64
    ensures { result ≤ calls_total keepers.now }
{
    let mut total: u64 = 0;
    for local in 0..keepers.len() {
        total = total.saturating_add(rows_total(keepers[local].rows()));
    }
    total
}

/// From a row's first call on one local more is kept, and from the call behind it one less.
fn note_ends(changes: &mut Vec<u32>, row: Row) {
    let first = row.first as usize;
    if let Some(change) = changes.get_mut(first) {
        *change = change.wrapping_add(1);
    }
    if let Some(change) = changes.get_mut(first + row.more as usize + 1) {
        *change = change.wrapping_sub(1);
    }
}

/// How many locals more each call keeps than the one before.
fn changes_of(alloc: Global, keepers: &[Calls], count: usize) -> Result<Vec<u32>, AllocError> {
    let mut changes = vec![in alloc; 0; count]?;
    for local in 0..keepers.len() {
        for row in keepers[local].rows() {
            note_ends(&mut changes, *row);
        }
    }
    Ok(changes)
}

/// The least length of a class whose calls keep so many locals; 0 where another call keeps as many, which may be of the same class.
fn more_length(seen: &mut Vec<bool>, count: u32) -> u64 {
    if count == 0 {
        return 0;
    }
    let Some(told) = seen.get_mut(count as usize) else {
        return 0;
    };
    if *told {
        return 0;
    }
    *told = true;
    22 + 6 * count as u64
}

/// A length that the classes of so many calls don't fall below, where these calls keep each local: calls that keep different numbers of
/// locals are in different classes. No more calls are looked at once it is enough.
fn classes_length(
    alloc: Global,
    keepers: &[Calls],
    count: usize,
    enough: u64,
) -> Result<u64, AllocError> {
    let changes = changes_of(alloc, keepers, count)?;
    let mut seen = vec![in alloc; false; keepers.len().saturating_add(1)]?;
    let mut kept: u32 = 0;
    let mut least: u64 = 0;
    for change in &changes {
        if least >= enough {
            return Ok(least);
        }
        kept = kept.wrapping_add(*change);
        least = least.saturating_add(more_length(&mut seen, kept));
    }
    Ok(least)
}

/// The same, and no more than what these calls allow for the fields that they keep.
pub(crate) fn least_length(
    alloc: Global,
    keepers: &[Calls],
    count: usize,
    enough: u64,
) -> Result<u64, AllocError>
    ensures { IfOk result (λ n. (types : List ValType) (sets : List (List Bool)) → AreKept (length types) count sets keepers.now → n ≤ 30 * kept_total types sets) }
{
    let least = classes_length(alloc, keepers, count, enough)?;
    let most = kept_together(keepers).saturating_mul(30);
    Ok(least.min(most))
}
