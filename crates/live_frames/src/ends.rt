//! What rows of calls add, told at their ends: each number is added to all calls from its place on.

ghost use Rattle.std.specs.Prelude.{◌≡◌, ◌≤◌, ◌<◌, ◌^◌, ◌+◌, ◌%◌, ℕ, suc, length, replicate, true, IfOk, if◌then◌else◌};
ghost use Rattle.call_frames.specs.CallRows.{numbers_in, row_views, upto};
ghost use Rattle.call_frames.specs.PlainFrames.{calls_end, is_one_of};
ghost use Rattle.live_frames.specs.Digits.{size_in};
ghost use Rattle.live_frames.specs.Ends.{EndSums, Rising, up_to};

use crate::digits::OwnSize;
use call_frames::Row;
use std::alloc::{AllocError, Global};

/// The number behind a row.
fn behind(row: Row) -> u64
    ensures { result ≡ suc (row.first + row.more) }
{
    row.first as u64 + row.more as u64 + 1
}

/// Whether each of these rows stands behind the one before.
pub(crate) fn rise(rows: &[Row]) -> bool
    ensures { result ≡ true → Rising 0 (row_views rows.now) }
{
    let mut end = 0;
    for row in rows {
        let first = row.first as u64;
        if first < end {
            return false;
        }
        end = behind(*row);
    }
    true
}

/// Nothing is told at so many ends.
pub(crate) fn no_ends(alloc: Global, count: usize) -> Result<Vec<u32>, AllocError>
    ensures { IfOk result (λ v. v.items ≡ replicate count 0) }
{
    vec![in alloc; 0; count]
}

/// Each call from this one on has so many bytes more.
fn add_from(ends: &mut Vec<u32>, call: usize, bytes: u32)
    requires { call < length ends.old.items }
    ensures length { length ends.new.items ≡ length ends.old.items }
    ensures before { (k : ℕ) → k < call → up_to k ends.new.items ≡ up_to k ends.old.items }
    ensures behind { (k : ℕ) → call ≤ k → up_to k ends.new.items % 2 ^ 32 ≡ (up_to k ends.old.items + bytes) % 2 ^ 32 }
{
    ends[call] = ends[call].wrapping_add(bytes);
}

/// Each call of a row has so many bytes more.
fn add_row_ends(ends: &mut Vec<u32>, row: Row, bytes: u32)
    requires { row.first + row.more + 1 < length ends.old.items }
    ensures length { length ends.new.items ≡ length ends.old.items }
    ensures more { (k : ℕ) → up_to k ends.new.items % 2 ^ 32 ≡ (up_to k ends.old.items + (if is_one_of (upto row.first row.more) k then bytes else 0)) % 2 ^ 32 }
{
    let first = row.first as usize;
    // So many less, modulo 2^32.
    let less = (u32::MAX - bytes).wrapping_add(1);
    add_from(ends, first, bytes);
    add_from(ends, first + row.more as usize + 1, less);
}

/// The calls of rows that rise have so many bytes more.
pub(crate) fn add_ends(ends: &mut Vec<u32>, rows: &[Row], bytes: u32)
    requires end { calls_end (numbers_in (row_views rows.now)) < length ends.old.items }
    requires rise { Rising 0 (row_views rows.now) }
    ensures length { length ends.new.items ≡ length ends.old.items }
    ensures sums { (sums : ℕ → ℕ) → EndSums sums ends.old.items → EndSums (λ k. sums k + (if is_one_of (numbers_in (row_views rows.now)) k then bytes else 0)) ends.new.items }
{
    let mut left = rows.len();
    while left > 0 {
        left -= 1;
        add_row_ends(ends, rows[left], bytes);
    }
}

/// A size with so many bytes more.
fn with_bytes(size: OwnSize, bytes: u32) -> OwnSize
    ensures { result.bytes ≡ (size.bytes + bytes) % 2 ^ 32 }
{
    OwnSize {
        bytes: size.bytes.wrapping_add(bytes),
        part: size.part,
    }
}

/// The sizes of calls with what is told at ends.
pub(crate) fn sum_up(sizes: &mut Vec<OwnSize>, ends: &[u32])
    requires { length sizes.old.items ≤ length ends.now }
    ensures length { length sizes.new.items ≡ length sizes.old.items }
    ensures sums { (k : ℕ) → k < length sizes.old.items → size_in sizes.new.items k ≡ (size_in sizes.old.items k + up_to k ends.now) % 2 ^ 32 }
{
    let mut more: u32 = 0;
    for call in 0..sizes.len() {
        more = more.wrapping_add(ends[call]);
        sizes[call] = with_bytes(sizes[call], more);
    }
}
