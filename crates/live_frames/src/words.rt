//! Tests of the call index by words: numbers whose bits tell which of 64 calls are meant.

ghost use Rattle.std.specs.Prelude.{◌≡◌, ◌≤◌, ◌<◌, ◌^◌, ◌++◌, ℕ, List, suc, ◌+◌, ◌*◌, false, get_or, length, nat_le, IfOk, OnOk, if◌then◌else◌};
ghost use Rattle.wa_types.specs.Syntax.{basic, const, local_get, num, plain, select};
ghost use Rattle.wa_types.specs.declared.operators.NumOp.TheVariants.{I32LtU};
ghost use Rattle.wa_types.specs.declared.values.Value.TheVariants.{I32 as value_32, I64 as value_64};
ghost use Rattle.call_frames.specs.CallRows.{RowsFit, numbers_in, row_views, upto};
ghost use Rattle.call_frames.specs.CallWords.{at_words, bit_taken, word_of};
ghost use Rattle.call_frames.specs.PlainFrames.{by_words, calls_end, is_one_of, rows_of, words_behind};
ghost use Rattle.live_frames.specs.Rows.{Tells};
ghost use Rattle.local_spill.specs.Putting.{Puts};

use call_frames::{Calls, Row};
use local_spill::put_all;
use std::alloc::{AllocError, Global};
use wa_types::{Instr, NumOp, Value};

/// The least number above a row and all that are below this number.
fn past(row: Row, end: u64) -> u64
    requires end { end ≤ 4294967296 }
    requires row { row.first + row.more < 2 ^ 32 }
    ensures end { result ≡ (if nat_le end (row.first + row.more) then suc (row.first + row.more) else end) }
    ensures small { result ≤ 4294967296 }
{
    let last = row.first as u64 + row.more as u64;
    if end <= last {
        return last + 1;
    }
    end
}

/// The least number above all calls of rows.
fn rows_end(rows: &[Row]) -> u64
    requires { RowsFit rows.now }
    ensures end { result ≡ calls_end (numbers_in (row_views rows.now)) }
    ensures small { result ≤ 4294967296 }
{
    let mut end = 0;
    let mut left = rows.len();
    while left > 0 {
        left -= 1;
        end = past(rows[left], end);
    }
    end
}

/// The least number above all of these.
pub fn calls_end(calls: &Calls) -> u64
    ensures end { result ≡ calls_end calls.now }
    ensures small { result ≤ 4294967296 }
{
    rows_end(calls.rows())
}

/// How many words there are behind the first.
pub(crate) fn words_behind(calls: &Calls) -> u64
    ensures { result ≡ words_behind calls.now }
{
    (calls_end(calls) + 63) / 64
}

/// Whether these calls have so many rows.
fn have_rows(calls: &Calls, least: u64) -> bool
    ensures { result ≡ nat_le least (length (rows_of calls.now)) }
{
    least <= calls.rows().len() as u64
}

/// Whether the test of these calls is by words.
pub(crate) fn by_words(calls: &Calls) -> bool
    ensures { result ≡ by_words calls.now }
{
    let words = words_behind(calls);
    if words > 1000 {
        return false;
    }
    have_rows(calls, 2 * words + 2)
}

/// Tells the calls of a row.
fn tell_row(told: &mut Vec<bool>, row: Row)
    requires { row.first + row.more < length told.old.items }
    ensures size { length told.new.items ≡ length told.old.items }
    ensures calls { (others : List ℕ) → Tells told.old.items others → Tells told.new.items (upto row.first row.more ++ others) }
{
    let mut left = row.more as usize + 1;
    while left > 0 {
        left -= 1;
        told[row.first as usize + left] = true;
    }
}

/// Which calls those of rows are, among so many.
fn told_calls(alloc: Global, rows: &[Row], count: usize) -> Result<Vec<bool>, AllocError>
    requires { calls_end (numbers_in (row_views rows.now)) ≤ count }
    ensures size { IfOk result (λ v. length v.items ≡ count) }
    ensures calls { IfOk result (λ v. Tells v.items (numbers_in (row_views rows.now))) }
{
    let mut told = vec![in alloc; false; count]?;
    let mut left = rows.len();
    while left > 0 {
        left -= 1;
        tell_row(&mut told, rows[left]);
    }
    Ok(told)
}

/// The bit of an answer.
fn bit(told: bool) -> u64
    ensures { result ≡ (if told then 1 else 0) }
{
    if told { 1 } else { 0 }
}

/// The word of this number.
fn word_from(told: &[bool], number: usize) -> u64
    requires { 64 * number + 64 ≤ length told.now }
    ensures { result ≡ word_of (λ j. get_or told.now j false) number }
{
    let mut bits = 0;
    let mut left = 64;
    while left > 0 {
        left -= 1;
        bits = 2 * bits + bit(told[64 * number + left]);
    }
    bits
}

/// Puts a word that takes the place of the one on top, where the index isn't below its first call.
fn put_word(out: &mut Vec<Instr>, index: u32, word: u64, first: u32) -> Result<(), AllocError>
    ensures { OnOk result (Puts out.old.items out.new.items (λ c. plain (basic (const (value_64 word)))
        (plain (local_get index) (plain (basic (const (value_32 first))) (plain (basic (num I32LtU)) (plain (basic select) c)))))) }
{
    put_all(
        out,
        [
            Instr::Const(Value::I64(word)),
            Instr::LocalGet(index),
            Instr::Const(Value::I32(first)),
            Instr::Num(NumOp::I32LtU),
            Instr::Select,
        ],
    )
}

/// Puts what takes the bit of the index in the word on top.
fn put_bit_taken(out: &mut Vec<Instr>, index: u32) -> Result<(), AllocError>
    ensures { OnOk result (Puts out.old.items out.new.items (bit_taken index)) }
{
    put_all(
        out,
        [
            Instr::LocalGet(index),
            Instr::Num(NumOp::I64ExtendI32U),
            Instr::Num(NumOp::I64ShrU),
            Instr::Const(Value::I64(1)),
            Instr::Num(NumOp::I64And),
            Instr::Num(NumOp::I32WrapI64),
        ],
    )
}

/// Puts the test of these calls by words.
pub(crate) fn put_words(
    alloc: Global,
    out: &mut Vec<Instr>,
    index: u32,
    calls: &Calls,
) -> Result<(), AllocError>
    requires { words_behind calls.now ≤ 1000 }
    ensures { OnOk result (Puts out.old.items out.new.items (at_words index (is_one_of calls.now) (words_behind calls.now))) }
{
    let mut left = words_behind(calls) as u32;
    let told = told_calls(alloc, calls.rows(), 64 * (left as usize + 1))?;
    out.push(Instr::Const(Value::I64(word_from(&told, 0))))?;
    let mut word = 1;
    while left > 0 {
        put_word(out, index, word_from(&told, word as usize), 64 * word)?;
        word += 1;
        left -= 1;
    }
    put_bit_taken(out, index)
}
