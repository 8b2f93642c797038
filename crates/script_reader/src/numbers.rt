//! Numbers and values in decimal, as words spell them.

ghost use Rattle.std.specs.Prelude.{◌≡◌, ◌<◌, ◌^◌, ◌-◌};
ghost use Rattle.script_model.specs.ScriptLines.{integer_in, number_within, u32_in, value_in};
ghost use Rattle.script_reader.specs.Reading.{Reads, begins_plainly, or_breaks};

use wa_types::Value;

/// A number from `least` to `most`, in decimal without leading zeros.
pub fn number_within(word: &str, least: u64, most: u64) -> Option<u64>
    ensures { result ≡ number_within least most word.now }
{
    let number = read_number(word)?;
    if number < least || most < number {
        return None;
    }
    Some(number)
}

// A number below 2^64.
fn read_number(word: &str) -> Option<u64>
    ensures { result ≡ number_within 0 (2 ^ 64 - 1) word.now }
{
    if !begins_plainly(word.as_bytes()) {
        return None;
    }
    word.parse().ok()
}

// There is no sign, and no zero in front of further digits.
fn begins_plainly(word: &[u8]) -> bool
    ensures { result ≡ begins_plainly word.now }
{
    match word {
        [] => false,
        [b'0', behind @ ..] => behind.is_empty(),
        [first, ..] => *first != b'+',
    }
}

/// A number below 2^32.
pub fn u32_in(word: &str) -> Option<u32>
    ensures { result ≡ u32_in word.now }
{
    let number = number_within(word, 0, u64::from(u32::MAX))?;
    Some(number as u32)
}

/// `i32:N` or `i64:N`, N from the least signed to the greatest unsigned number of the width.
pub fn value_in(word: &str) -> Option<Value>
    ensures { result ≡ value_in word.now }
{
    if let Some(digits) = word.strip_prefix("i32:") {
        let number = integer_32(digits)?;
        return Some(Value::I32(number));
    }
    let digits = word.strip_prefix("i64:")?;
    let number = integer_64(digits)?;
    Some(Value::I64(number))
}

fn integer_32(digits: &str) -> Option<u32>
    ensures { result ≡ integer_in 32 digits.now }
{
    match digits.strip_prefix('-') {
        Some(digits) => {
            let number = number_within(digits, 1, 1 << 31)?;
            Some((0x1_0000_0000 - number) as u32)
        }
        None => u32_in(digits),
    }
}

fn integer_64(digits: &str) -> Option<u64>
    ensures { result ≡ integer_in 64 digits.now }
{
    match digits.strip_prefix('-') {
        Some(digits) => {
            let number = number_within(digits, 1, 1 << 63)?;
            Some(u64::MAX - (number - 1))
        }
        None => number_within(digits, 0, u64::MAX),
    }
}
