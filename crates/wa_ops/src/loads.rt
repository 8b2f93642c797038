//! What a load makes of the bytes that it reads (standard, section 4.4.4.1).

ghost use Rattle.std.specs.Prelude.{◌≡◌, ◌*◌, ◌^◌, ◌<◌, ◌≤◌, ◌⊎◌};
ghost use Rattle.wa_types.specs.Frames.{width};
ghost use Rattle.wa_ops.specs.Integers.{extend_s};
ghost use Rattle.wa_ops.specs.Loads.{load_value};

use wa_types::{ValType, Value};

/// The value that a load of so many bytes makes of the number that they spell; where told, it is the number's
/// signed reading (standard, section 4.4.4.1).
pub fn load_value(ty: ValType, bytes: u32, is_signed: bool, number: u64) -> Value
    requires bytes { (bytes ≡ 1) ⊎ (bytes ≡ 2) ⊎ (bytes ≡ 4) ⊎ (bytes ≡ 8) }
    requires within { bytes ≤ width ty }
    requires fits { number < 256 ^ bytes }
    ensures { result ≡ load_value ty bytes is_signed number }
{
    match (ty, is_signed) {
        (ValType::I32, false) => Value::I32(number as u32),
        (ValType::I32, true) => Value::I32((extended(bytes, number) % (1 << 32)) as u32),
        (ValType::I64, false) => Value::I64(number),
        (ValType::I64, true) => Value::I64(extended(bytes, number)),
    }
}

/// The signed reading of a number of so many bytes, at 64 bits.
fn extended(bytes: u32, number: u64) -> u64
    requires bytes { (bytes ≡ 1) ⊎ (bytes ≡ 2) ⊎ (bytes ≡ 4) ⊎ (bytes ≡ 8) }
    requires fits { number < 256 ^ bytes }
    ensures { result ≡ extend_s (8 * bytes) 64 number }
{
    match bytes {
        1 => i64::from((number as u8).cast_signed()).cast_unsigned(),
        2 => i64::from((number as u16).cast_signed()).cast_unsigned(),
        4 => i64::from((number as u32).cast_signed()).cast_unsigned(),
        _ => number,
    }
}
