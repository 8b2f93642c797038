//! How long the codes of parts are, and what their tests cost.

ghost use Rattle.std.specs.Prelude.{◌≡◌, ◌≤◌, ◌<◌, ◌^◌, ◌∷◌, [], true};
ghost use Rattle.call_frames.specs.CallTests.{row_size};
ghost use Rattle.call_frames.specs.PlainFrames.{rows_size, test_size};
ghost use Rattle.call_frames.specs.PlainLaws.{tests_cost};
ghost use Rattle.call_frames.specs.CallParts.{are_better, parts_length};
ghost use Rattle.call_frames.specs.CallRows.{row_view, row_views};
ghost use Rattle.call_frames.specs.Views.{class_part, part_view, part_views};

use crate::frames::{CallClass, KeptPart};
use crate::rows::{Calls, Row};

/// How many instructions the test of a row has.
pub fn row_size(row: Row) -> u64
    ensures size { result ≡ row_size (row_view row) }
    ensures few { result ≤ 5 }
{
    if row.more == 0 {
        return 3;
    }
    if row.first == 0 {
        return 3;
    }
    5
}

/// How many instructions the test of rows has.
fn rows_size(rows: &[Row]) -> u64
    requires { rows_size (row_views rows.now) < 2 ^ 62 }
    ensures { result ≡ rows_size (row_views rows.now) }
{
    if rows.is_empty() {
        return 1;
    }
    let mut size = 0;
    for row in rows {
        size += row_size(*row) + 1;
    }
    size - 1
}

/// How many instructions the test of these calls has.
fn test_size(calls: &Calls) -> u64
    requires { test_size calls.now < 2 ^ 62 }
    ensures { result ≡ test_size calls.now }
{
    rows_size(calls.rows())
}

/// The length of a class in both codes.
fn class_length(class: &CallClass) -> u64
    requires { parts_length (class_part class.now ∷ []) < 2 ^ 62 }
    ensures { result ≡ parts_length (class_part class.now ∷ []) }
{
    3 * test_size(&class.calls) + 13 + 6 * class.fields.len() as u64
}

/// The length of a part in both codes.
fn part_length(part: &KeptPart) -> u64
    requires { parts_length (part_view part.now ∷ []) < 2 ^ 62 }
    ensures { result ≡ parts_length (part_view part.now ∷ []) }
{
    match part {
        KeptPart::Every(fields) => 6 * fields.len() as u64,
        KeptPart::These(class) => class_length(class),
    }
}

/// The length of parts in both codes.
pub(crate) fn length_of(parts: &[KeptPart]) -> u64
    requires { parts_length (part_views parts.now) < 2 ^ 62 }
    ensures { result ≡ parts_length (part_views parts.now) }
{
    let mut length = 0;
    for part in parts {
        length += part_length(part);
    }
    length
}

/// What the test of a part costs.
fn part_cost(part: &KeptPart) -> u64
    requires { tests_cost (part_view part.now ∷ []) < 2 ^ 62 }
    ensures { result ≡ tests_cost (part_view part.now ∷ []) }
{
    match part {
        KeptPart::Every(_) => 0,
        KeptPart::These(class) => 3 * test_size(&class.calls) + 15,
    }
}

/// What the tests of parts cost.
fn cost_of(parts: &[KeptPart]) -> u64
    requires { tests_cost (part_views parts.now) < 2 ^ 62 }
    ensures { result ≡ tests_cost (part_views parts.now) }
{
    let mut cost = 0;
    for part in parts {
        cost += part_cost(part);
    }
    cost
}

/// Whether groups are at most so long, and their tests cost no more than they may.
pub(crate) fn are_short(groups: &[KeptPart], length: u64, most: u64) -> bool
    requires { parts_length (part_views groups.now) < 2 ^ 60 }
    ensures cost { result ≡ true → tests_cost (part_views groups.now) ≤ most }
    ensures length { result ≡ true → parts_length (part_views groups.now) ≤ length }
{
    if cost_of(groups) > most {
        return false;
    }
    length_of(groups) <= length
}

/// Whether groups are taken in place of classes, where tests may cost so much.
pub(crate) fn are_better(groups: &[KeptPart], classes: &[KeptPart], most: u64) -> bool
    requires groups { parts_length (part_views groups.now) < 2 ^ 60 }
    requires classes { parts_length (part_views classes.now) < 2 ^ 60 }
    ensures { result ≡ are_better most (part_views groups.now) (part_views classes.now) }
{
    if cost_of(groups) > most {
        return false;
    }
    length_of(groups) <= length_of(classes)
}
