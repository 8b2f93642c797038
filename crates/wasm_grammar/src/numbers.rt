//! Numbers in LEB128, those of one byte at once (standard, section 5.2.2).

ghost use Rattle.std.specs.Prelude.{◌≡◌, ◌<◌, ◌≤◌, ◌^◌, length, drop, IfOk};
ghost use Rattle.std.specs.Int.{w32, w64};
ghost use Rattle.leb_numbers.specs.Leb.{unsigned_at, signed_at, in_bits};

use wa_types::{LebFault, read_s32, read_s64, read_u32};

/// Reads an unsigned number of 32 bits (standard, section 5.2.2), as `wa_types::read_u32` does.
#[inline(always)]
pub(crate) fn unsigned_32(bytes: &[u8], at: &mut usize) -> Result<u32, LebFault>
    requires { at.old ≤ length bytes.now }
    ensures exact { (result, at.new) ≡ unsigned_at 32 (drop at.old bytes.now) at.old }
    ensures place { at.new ≤ length bytes.now }
    ensures fits { IfOk result (λ n. n < 2 ^ 32) }
{
    if *at < bytes.len() {
        let byte = bytes[*at];
        if byte < 128 {
            *at += 1;
            return Ok(byte as u32);
        }
    }
    read_u32(bytes, at)
}

/// Reads a signed number of 32 bits, as `wa_types::read_s32` does.
#[inline(always)]
pub(crate) fn signed_32(bytes: &[u8], at: &mut usize) -> Result<i32, LebFault>
    requires { at.old ≤ length bytes.now }
    ensures exact { (in_bits w32 result, at.new) ≡ signed_at 32 (drop at.old bytes.now) at.old }
    ensures place { at.new ≤ length bytes.now }
{
    if *at < bytes.len() {
        let byte = bytes[*at];
        if byte < 64 {
            *at += 1;
            return Ok(byte as i32);
        }
    }
    read_s32(bytes, at)
}

/// Reads a signed number of 64 bits, as `wa_types::read_s64` does.
#[inline(always)]
pub(crate) fn signed_64(bytes: &[u8], at: &mut usize) -> Result<i64, LebFault>
    requires { at.old ≤ length bytes.now }
    ensures exact { (in_bits w64 result, at.new) ≡ signed_at 64 (drop at.old bytes.now) at.old }
    ensures place { at.new ≤ length bytes.now }
{
    if *at < bytes.len() {
        let byte = bytes[*at];
        if byte < 64 {
            *at += 1;
            return Ok(byte as i64);
        }
    }
    read_s64(bytes, at)
}
