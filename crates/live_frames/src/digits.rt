//! The sizes of what not all calls keep, call by call, and their binary digits.

ghost use Rattle.std.specs.Prelude.{◌≡◌, ◌≤◌, ◌<◌, ◌^◌, ◌+◌, ◌%◌, ◌++◌, ◌∷◌, [], ℕ, List, length, nat_eq, replicate, OnOk, IfOk, if◌then◌else◌};
ghost use Rattle.std.specs.Int.{bit_at};
ghost use Rattle.call_frames.specs.CallRows.{numbers_in, row_views, upto};
ghost use Rattle.call_frames.specs.PlainFrames.{calls_end, calls_with, digits_of, is_one_of, part_weights, planes, weight_at, weights_end, weights_size, with_weight};
ghost use Rattle.call_frames.specs.Classes.{FewParts, part_fields};
ghost use Rattle.call_frames.specs.Views.{part_view, part_views};
ghost use Rattle.live_frames.specs.Digits.{HoldSums, no_size, plane_views, size_in, summed};
ghost use Rattle.live_frames.specs.Ends.{Added};

use crate::ends::{add_ends, no_ends, rise, sum_up};
use crate::fields::size_of;
use crate::words::calls_end;
use call_frames::{Calls, KeptPart, Row};
use std::alloc::{AllocError, Global};

/// The bytes of a call's frame so far, and the number of the part that was added last.
#[derive(Clone, Copy)]
pub(crate) struct OwnSize {
    pub(crate) bytes: u32,
    pub(crate) part: usize,
}

/// Calls, and how many bytes each of them adds.
#[derive(Drop)]
pub(crate) struct Plane {
    pub(crate) calls: Calls,
    pub(crate) bytes: u32,
}

/// The least number above the calls of a part that not all calls keep.
fn part_end(part: &KeptPart) -> u64
    ensures end { result ≡ weights_end (part_weights (part_view part.now ∷ [])) }
    ensures small { result ≤ 4294967296 }
{
    match part {
        KeptPart::Every(_) => 0,
        KeptPart::These(class) => calls_end(&class.calls),
    }
}

/// The least number above the calls of all such parts.
fn parts_end(parts: &[KeptPart]) -> u64
    ensures end { result ≡ weights_end (part_weights (part_views parts.now)) }
    ensures small { result ≤ 4294967296 }
{
    let mut end: u64 = 0;
    for part in parts {
        end = end.max(part_end(part));
    }
    end
}

/// A size with the bytes of the part of this number, which are added once.
fn with_part(size: OwnSize, part: usize, bytes: u32) -> OwnSize
    ensures { result ≡ summed bytes part size }
{
    if size.part == part {
        return size;
    }
    OwnSize {
        bytes: size.bytes.wrapping_add(bytes),
        part,
    }
}

/// Adds the bytes of the part of this number to the sizes of a row's calls.
fn add_row(sizes: &mut Vec<OwnSize>, part: usize, row: Row, bytes: u32)
    requires { row.first + row.more < length sizes.old.items }
    ensures length { length sizes.new.items ≡ length sizes.old.items }
    ensures sums { (sums : ℕ → ℕ) (named : List ℕ) → HoldSums sums bytes part named sizes.old.items → HoldSums sums bytes part (upto row.first row.more ++ named) sizes.new.items }
{
    let mut left = row.more as usize + 1;
    while left > 0 {
        left -= 1;
        let call = row.first as usize + left;
        sizes[call] = with_part(sizes[call], part, bytes);
    }
}

/// Adds the bytes of the part of this number to the sizes of the calls of its rows.
fn add_bytes(sizes: &mut Vec<OwnSize>, part: usize, rows: &[Row], bytes: u32)
    requires { calls_end (numbers_in (row_views rows.now)) ≤ length sizes.old.items }
    ensures length { length sizes.new.items ≡ length sizes.old.items }
    ensures sums { (sums : ℕ → ℕ) → HoldSums sums bytes part [] sizes.old.items → HoldSums sums bytes part (numbers_in (row_views rows.now)) sizes.new.items }
{
    let mut left = rows.len();
    while left > 0 {
        left -= 1;
        add_row(sizes, part, rows[left], bytes);
    }
}

/// Adds the bytes of the part of this number to the sizes of the calls of its rows: at the ends of rows that rise, else call by call.
fn add_rows(sizes: &mut Vec<OwnSize>, ends: &mut Vec<u32>, part: usize, rows: &[Row], bytes: u32)
    requires sizes { calls_end (numbers_in (row_views rows.now)) ≤ length sizes.old.items }
    requires ends { calls_end (numbers_in (row_views rows.now)) < length ends.old.items }
    ensures sizes { length sizes.new.items ≡ length sizes.old.items }
    ensures ends { length ends.new.items ≡ length ends.old.items }
    ensures added { (sums : ℕ → ℕ) (last : ℕ) → last < part → Added sums last sizes.old.items ends.old.items
        → Added (λ k. sums k + (if is_one_of (numbers_in (row_views rows.now)) k then bytes else 0)) part sizes.new.items ends.new.items }
{
    if rise(rows) {
        add_ends(ends, rows, bytes);
        return;
    }
    add_bytes(sizes, part, rows, bytes);
}

/// Adds the size of the part of this number to those of its calls, if not all calls keep it.
fn add_part(sizes: &mut Vec<OwnSize>, ends: &mut Vec<u32>, number: usize, part: &KeptPart)
    requires few { part_fields (part_view part.now) ≤ 50000 }
    requires sizes { weights_end (part_weights (part_view part.now ∷ [])) ≤ length sizes.old.items }
    requires ends { weights_end (part_weights (part_view part.now ∷ [])) < length ends.old.items }
    ensures sizes { length sizes.new.items ≡ length sizes.old.items }
    ensures ends { length ends.new.items ≡ length ends.old.items }
    ensures added { (sums : ℕ → ℕ) (last : ℕ) → last < number → Added sums last sizes.old.items ends.old.items
        → Added (λ k. sums k + weight_at k (part_weights (part_view part.now ∷ []))) number sizes.new.items ends.new.items }
{
    match part {
        KeptPart::Every(_) => {}
        KeptPart::These(class) => add_rows(
            sizes,
            ends,
            number,
            class.calls.rows(),
            size_of(&class.fields),
        ),
    }
}

/// The sizes of so many calls, of which nothing was added.
fn no_sizes(alloc: Global, count: usize) -> Result<Vec<OwnSize>, AllocError>
    ensures { IfOk result (λ v. v.items ≡ replicate count no_size) }
{
    vec![in alloc; OwnSize { bytes: 0, part: 0 }; count]
}

/// What the frames of the calls below an end have of parts that not all calls keep.
fn own_sizes(alloc: Global, parts: &[KeptPart], end: usize) -> Result<Vec<OwnSize>, AllocError>
    requires few { FewParts (part_views parts.now) }
    requires end { weights_end (part_weights (part_views parts.now)) ≤ end }
    requires small { end ≤ 4294967296 }
    ensures length { IfOk result (λ v. length v.items ≡ end) }
    ensures sizes { IfOk result (λ v. (k : ℕ) → k < end → size_in v.items k ≡ weight_at k (part_weights (part_views parts.now)) % 2 ^ 32) }
{
    let mut sizes = no_sizes(alloc, end)?;
    let mut ends = no_ends(alloc, end + 1)?;
    for number in 0..parts.len() {
        add_part(&mut sizes, &mut ends, number + 1, &parts[number]);
    }
    sum_up(&mut sizes, &ends);
    Ok(sizes)
}

/// Whether a number has a 1 at a binary digit.
fn has_digit(number: u32, digit: u32) -> bool
    requires { digit < 32 }
    ensures { result ≡ nat_eq (bit_at number digit) 1 }
{
    (number >> digit) & 1 == 1
}

/// Puts a call, where told.
fn put_call(calls: &mut Calls, call: u32, told: bool) -> Result<(), AllocError>
    ensures { OnOk result (calls.new ≡ calls.old ++ (if told then call ∷ [] else [])) }
{
    if told {
        calls.push(call)?;
    }
    Ok(())
}

/// The calls whose sizes have a 1 at a binary digit.
fn digit_calls(alloc: Global, sizes: &[OwnSize], digit: u32) -> Result<Calls, AllocError>
    requires digit { digit < 32 }
    requires calls { length sizes.now ≤ 4294967296 }
    ensures { IfOk result (λ v. v ≡ calls_with (size_in sizes.now) digit 0 (length sizes.now)) }
{
    let mut calls = Calls::none(alloc);
    for call in 0..sizes.len() {
        put_call(&mut calls, call as u32, has_digit(sizes[call].bytes, digit))?;
    }
    Ok(calls)
}

/// Puts calls that add so many bytes, if there are any.
fn put_plane(planes: &mut Vec<Plane>, calls: Calls, bytes: u32) -> Result<(), AllocError>
    ensures { OnOk result (plane_views planes.new.items ≡ plane_views planes.old.items ++ with_weight calls bytes []) }
{
    if calls.is_empty() {
        return Ok(());
    }
    planes.push(Plane { calls, bytes })?;
    Ok(())
}

/// The sizes by so many binary digits.
fn planes_of(alloc: Global, sizes: &[OwnSize], count: u32) -> Result<Vec<Plane>, AllocError>
    requires digits { count ≤ 32 }
    requires calls { length sizes.now ≤ 4294967296 }
    ensures { IfOk result (λ v. plane_views v.items ≡ planes (size_in sizes.now) (length sizes.now) 0 count) }
{
    let mut planes = Vec::new(alloc);
    for digit in 0..count {
        let calls = digit_calls(alloc, sizes, digit)?;
        put_plane(&mut planes, calls, 1 << digit)?;
    }
    Ok(planes)
}

/// What the calls add that not all calls keep, by binary digits.
pub(crate) fn digits_of(alloc: Global, parts: &[KeptPart]) -> Result<Vec<Plane>, AllocError>
    requires { FewParts (part_views parts.now) }
    ensures digits { IfOk result (λ v. plane_views v.items ≡ digits_of (part_weights (part_views parts.now))) }
    ensures small { IfOk result (λ v. weights_size (plane_views v.items) < 2 ^ 64) }
{
    let end = parts_end(parts) as usize;
    let sizes = own_sizes(alloc, parts, end)?;
    planes_of(alloc, &sizes, 32)
}
