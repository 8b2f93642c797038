//! Numbers, sizes and names as bytes (standard, sections 5.2.2 and 5.2.4).

ghost use Rattle.std.specs.Prelude.{◌≡◌, ◌≤◌, ◌<◌, ◌^◌, ◌++◌, ◌+◌, length, OnOk};
ghost use Rattle.leb_numbers.specs.Leb.{shortest, shortest_signed};
ghost use Rattle.wa_types.specs.Encoding.{sized};

use bytes::BytesMut;
use std::alloc::AllocError;
use wa_types::{Name, Spelling};

/// How many bytes an unsigned number is spelled in.
#[tactic(auto, using(crate::proofs::SingleBytes::one_byte))]
pub fn unsigned_len(n: u64) -> u64
    ensures exact { result ≡ length (shortest n) }
    ensures few { result ≤ 10 }
{
    if n < 128 {
        return 1;
    }
    Spelling::of_unsigned(n).as_slice().len() as u64
}

/// Appends an unsigned number.
#[tactic(auto, using(crate::proofs::SingleBytes::one_byte))]
pub fn put_unsigned(out: &mut BytesMut, n: u64) -> Result<(), AllocError>
    ensures { OnOk result (out.new.items ≡ out.old.items ++ shortest n) }
{
    if n < 128 {
        return out.extend_from_slice(&[n as u8]);
    }
    out.extend_from_slice(Spelling::of_unsigned(n).as_slice())
}

/// How many bytes a signed number of so many bits is spelled in, given in two's complement.
#[tactic(auto, using(crate::proofs::SingleBytes::one_byte))]
pub fn signed_len(n: u64, bits: u32) -> u64
    requires most { bits ≤ 64 }
    requires some { 1 ≤ bits }
    requires fits { n < 2 ^ bits }
    ensures exact { result ≡ length (shortest_signed bits n) }
    ensures few { result ≤ 10 }
{
    if n < 64 && bits >= 8 {
        return 1;
    }
    Spelling::of_signed(n, bits).as_slice().len() as u64
}

/// Appends a signed number of so many bits, given in two's complement.
pub fn put_signed(out: &mut BytesMut, n: u64, bits: u32) -> Result<(), AllocError>
    requires most { bits ≤ 64 }
    requires some { 1 ≤ bits }
    requires fits { n < 2 ^ bits }
    ensures { OnOk result (out.new.items ≡ out.old.items ++ shortest_signed bits n) }
{
    out.extend_from_slice(Spelling::of_signed(n, bits).as_slice())
}

/// How many bytes so many bytes take behind their number (standard, section 5.5.2).
pub fn sized_len(len: u64) -> u64
    requires { length (shortest len) + len < 2 ^ 64 }
    ensures { result ≡ length (shortest len) + len }
{
    unsigned_len(len) + len
}

/// How many bytes a name takes (standard, section 5.2.4).
pub fn name_len(name: &Name) -> u64
    requires { length (sized name.now) < 2 ^ 64 }
    ensures { result ≡ length (sized name.now) }
{
    sized_len(name.as_str().len() as u64)
}

/// Appends a name (standard, section 5.2.4).
pub fn put_name(out: &mut BytesMut, name: &Name) -> Result<(), AllocError>
    ensures { OnOk result (out.new.items ≡ out.old.items ++ sized name.now) }
{
    let text = name.as_str().as_bytes();
    put_unsigned(out, text.len() as u64)?;
    out.extend_from_slice(text)
}
