//! The parts of a line: words, numbers, names, bytes and values.

ghost use Rattle.std.specs.Prelude.{◌≡◌, ◌++◌, ◌<◌, [], OnOk, slice_get};
ghost use Rattle.std.specs.Fmt.{decimal};
ghost use Rattle.std.specs.Option.{unwrap_or};
ghost use Rattle.script_model.specs.Transcript.{behind_spaces, hex_digit, hex_pair, is_plain_byte, name_byte, printed_bytes, printed_name, printed_value, value_or_none};

use std::alloc::{AllocError, Global};
use wa_types::{Name, Value};

/// Puts words behind what stands in a line.
pub fn put(line: &mut Vec<u8>, words: &str) -> Result<(), AllocError>
    ensures { OnOk result (line.new.items ≡ line.old.items ++ words.now) }
{
    line.extend_from_slice(words.as_bytes())
}

/// Puts a number in decimal.
pub fn put_number(alloc: Global, line: &mut Vec<u8>, number: u64) -> Result<(), AllocError>
    ensures { OnOk result (line.new.items ≡ line.old.items ++ decimal number) }
{
    let digits = format!(in alloc; "{number}")?;
    line.extend_from_slice(digits.as_bytes())
}

/// Puts words and a number.
pub fn put_with_number(
    alloc: Global,
    line: &mut Vec<u8>,
    words: &str,
    number: u64,
) -> Result<(), AllocError>
    ensures { OnOk result (line.new.items ≡ line.old.items ++ (words.now ++ decimal number)) }
{
    put(line, words)?;
    put_number(alloc, line, number)
}

/// Puts a number in decimal, past 64 bits too.
pub fn put_wide_number(alloc: Global, line: &mut Vec<u8>, number: u128) -> Result<(), AllocError>
    ensures { OnOk result (line.new.items ≡ line.old.items ++ decimal number) }
{
    let digits = format!(in alloc; "{number}")?;
    line.extend_from_slice(digits.as_bytes())
}

/// Puts words and a number, past 64 bits too.
pub fn put_with_wide_number(
    alloc: Global,
    line: &mut Vec<u8>,
    words: &str,
    number: u128,
) -> Result<(), AllocError>
    ensures { OnOk result (line.new.items ≡ line.old.items ++ (words.now ++ decimal number)) }
{
    put(line, words)?;
    put_wide_number(alloc, line, number)
}

/// The name of this number, and an empty one where there is none.
pub fn name_of(names: &[Name], number: u32) -> &str
    ensures { result.now ≡ unwrap_or (slice_get names.now number) [] }
{
    match names.get(number as usize) {
        None => "",
        Some(name) => name.as_str(),
    }
}

/// Puts a name: bytes outside `!` to `~` and `%` stand as `%hh`.
pub fn put_name(line: &mut Vec<u8>, name: &str) -> Result<(), AllocError>
    ensures { OnOk result (line.new.items ≡ line.old.items ++ printed_name name.now) }
{
    for byte in name.as_bytes() {
        put_name_byte(line, *byte)?;
    }
    Ok(())
}

/// Puts words and a name.
pub fn put_with_name(line: &mut Vec<u8>, words: &str, name: &str) -> Result<(), AllocError>
    ensures { OnOk result (line.new.items ≡ line.old.items ++ (words.now ++ printed_name name.now)) }
{
    put(line, words)?;
    put_name(line, name)
}

// A byte of a name, as it is or as `%hh`.
fn put_name_byte(line: &mut Vec<u8>, byte: u8) -> Result<(), AllocError>
    ensures { OnOk result (line.new.items ≡ line.old.items ++ name_byte byte) }
{
    if is_plain_byte(byte) {
        line.push(byte)?;
        return Ok(());
    }
    line.push(b'%')?;
    put_hex_pair(line, byte)
}

fn is_plain_byte(byte: u8) -> bool
    ensures { result ≡ is_plain_byte byte }
{
    b'!' <= byte && byte <= b'~' && byte != b'%'
}

// A byte as two hexadecimal digits.
fn put_hex_pair(line: &mut Vec<u8>, byte: u8) -> Result<(), AllocError>
    ensures { OnOk result (line.new.items ≡ line.old.items ++ hex_pair byte) }
{
    line.push(hex_digit(byte / 16))?;
    line.push(hex_digit(byte % 16))?;
    Ok(())
}

fn hex_digit(digit: u8) -> u8
    requires { digit < 16 }
    ensures { result ≡ hex_digit digit }
{
    if digit < 10 {
        b'0' + digit
    } else {
        b'a' + (digit - 10)
    }
}

/// Puts bytes, each as two hexadecimal digits.
pub fn put_bytes(line: &mut Vec<u8>, bytes: &[u8]) -> Result<(), AllocError>
    ensures { OnOk result (line.new.items ≡ line.old.items ++ printed_bytes bytes.now) }
{
    for byte in bytes {
        put_hex_pair(line, *byte)?;
    }
    Ok(())
}

/// Puts a value, as `i32:N` or `i64:N`.
pub fn put_value(alloc: Global, line: &mut Vec<u8>, value: Value) -> Result<(), AllocError>
    ensures { OnOk result (line.new.items ≡ line.old.items ++ printed_value value) }
{
    match value {
        Value::I32(n) => {
            put(line, "i32:")?;
            put_number(alloc, line, u64::from(n))
        }
        Value::I64(n) => {
            put(line, "i64:")?;
            put_number(alloc, line, n)
        }
    }
}

/// Puts a value, or `none`.
pub fn put_value_or_none(
    alloc: Global,
    line: &mut Vec<u8>,
    value: Option<Value>,
) -> Result<(), AllocError>
    ensures { OnOk result (line.new.items ≡ line.old.items ++ value_or_none value) }
{
    match value {
        None => put(line, "none"),
        Some(value) => put_value(alloc, line, value),
    }
}

/// Puts values, a space before each.
pub fn put_values(alloc: Global, line: &mut Vec<u8>, values: &[Value]) -> Result<(), AllocError>
    ensures { OnOk result (line.new.items ≡ line.old.items ++ behind_spaces values.now) }
{
    for value in values {
        put(line, " ")?;
        put_value(alloc, line, *value)?;
    }
    Ok(())
}
