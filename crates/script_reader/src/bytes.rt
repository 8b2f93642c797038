//! Bytes in hexadecimal digits.

ghost use Rattle.std.specs.Prelude.{◌≡◌, ◌≤◌, length, IfOk};
ghost use Rattle.script_model.specs.ScriptLines.{hex_bytes, hex_in};
ghost use Rattle.script_reader.specs.Reading.{Reads, or_breaks};

use crate::word_fault::LineFault;
use crate::words::{joined_digits, put_byte};
use std::alloc::Global;

const LEAST_DIGITS: usize = 2;

const MOST_DIGITS: usize = 131_072;

/// From 1 to 65,536 bytes, two digits of either case each.
pub fn hex_in(alloc: Global, word: &str) -> Result<Vec<u8>, LineFault>
    ensures { Reads (λ bytes. bytes.items) result (or_breaks 4 (hex_in word.now)) }
{
    if word.len() < LEAST_DIGITS || MOST_DIGITS < word.len() {
        return Err(LineFault::Rule(4));
    }
    hex_bytes(alloc, word.as_bytes())
}

fn hex_bytes(alloc: Global, digits: &[u8]) -> Result<Vec<u8>, LineFault>
    ensures { Reads (λ bytes. bytes.items) result (or_breaks 4 (hex_bytes digits.now)) }
{
    let mut bytes = Vec::new(alloc);
    let mut rest = digits;
    while let [high, low, behind @ ..] = rest {
        let Some(byte) = joined_digits(*high, *low) else {
            return Err(LineFault::Rule(4));
        };
        put_byte(&mut bytes, byte)?;
        rest = behind;
    }
    if !rest.is_empty() {
        return Err(LineFault::Rule(4));
    }
    Ok(bytes)
}
