//! How many instructions a test of the call index has.

ghost use Rattle.std.specs.Prelude.{◌≡◌};
ghost use Rattle.call_frames.specs.CallRows.{row_views};
ghost use Rattle.call_frames.specs.PlainFrames.{calls_size, rows_size};
ghost use Rattle.live_frames.specs.Rows.{saturated};

use crate::words::{by_words, words_behind};
use call_frames::{Calls, Row, row_size};

/// How many instructions the test of rows has.
fn rows_size(rows: &[Row]) -> u64
    ensures { result ≡ saturated (rows_size (row_views rows.now)) }
{
    if rows.is_empty() {
        return 1;
    }
    let mut size = row_size(rows[0]);
    let mut at = 1;
    while at < rows.len() {
        size = size.saturating_add(row_size(rows[at]) + 1);
        at += 1;
    }
    size
}

/// How many instructions the test of these calls has.
pub fn calls_size(calls: &Calls) -> u64
    ensures { result ≡ saturated (calls_size calls.now) }
{
    if by_words(calls) {
        return 5 * words_behind(calls) + 7;
    }
    rows_size(calls.rows())
}
