//! Numbers in LEB128, read and written, with their laws (standard, section 5.2.2).

ghost use Rattle.std.specs.Prelude.{◌≡◌, ℕ, ◌+◌, ◌*◌, ◌<◌, ◌≤◌, ◌^◌, ◌++◌, List, [], ◌∷◌, length, drop, slice_index, Ok, IfOk, OnOk, OnErr, MatchOption};
ghost use Rattle.std.specs.Int.{w32, w64, cast_unsigned};
ghost use Rattle.leb_numbers.specs.Leb.{unsigned_at, signed_at, last_signed, in_bits, shortest, shortest_signed, IsLong, IsOneByte, IsUnsigned, IsSigned, Front};

use std::alloc::{AllocError, Global};
use std::marker::Model;
use thiserror::Error;

/// Why no number was read.
#[derive(Clone, Copy, Debug, PartialEq, Eq, Error)]
pub enum LebFault {
    /// The bytes end first.
    #[error("the number is cut off")]
    Short,
    /// The last byte that may stand there has its high bit.
    #[error("the number is too long")]
    Long,
    /// That byte's unused bits are wrong.
    #[error("the number is too large")]
    Bits,
}

/// Reads an unsigned number of 32 bits (standard, section 5.2.2) at `at`, and moves `at` behind the last
/// byte looked at. Padded spellings are accepted.
pub fn read_u32(bytes: &[u8], at: &mut usize) -> Result<u32, LebFault>
    requires { at.old ≤ length bytes.now }
    ensures exact { (result, at.new) ≡ unsigned_at 32 (drop at.old bytes.now) at.old }
    ensures place { at.new ≤ length bytes.now }
    ensures fits { IfOk result (λ n. n < 2 ^ 32) }
{
    let n = read_unsigned(bytes, at, 32)?;
    Ok(n as u32)
}

/// Reads a signed number of 32 bits, as `read_u32` reads an unsigned one.
pub fn read_s32(bytes: &[u8], at: &mut usize) -> Result<i32, LebFault>
    requires { at.old ≤ length bytes.now }
    ensures exact { (in_bits w32 result, at.new) ≡ signed_at 32 (drop at.old bytes.now) at.old }
    ensures place { at.new ≤ length bytes.now }
{
    let n = read_signed(bytes, at, 32)?;
    Ok((n as u32).cast_signed())
}

/// Reads a signed number of 64 bits, as `read_u32` reads an unsigned one of 32.
pub fn read_s64(bytes: &[u8], at: &mut usize) -> Result<i64, LebFault>
    requires { at.old ≤ length bytes.now }
    ensures exact { (in_bits w64 result, at.new) ≡ signed_at 64 (drop at.old bytes.now) at.old }
    ensures place { at.new ≤ length bytes.now }
{
    let n = read_signed(bytes, at, 64)?;
    Ok(n.cast_signed())
}

// The number of at most so many bits at this place.
#[tactic(auto, using(crate::proofs::LebLemmas::reading))]
fn read_unsigned(bytes: &[u8], at: &mut usize, bits: u32) -> Result<u64, LebFault>
    requires place { at.old ≤ length bytes.now }
    requires bits { bits ≤ 64 }
    ensures exact { (result, at.new) ≡ unsigned_at bits (drop at.old bytes.now) at.old }
    ensures place { at.new ≤ length bytes.now }
    ensures fits { IfOk result (λ n. n < 2 ^ bits) }
{
    if *at == bytes.len() {
        return Err(LebFault::Short);
    }
    let b = bytes[*at] as u64;
    *at += 1;
    if b < 128 {
        if bits < 7 && b >= 1 << bits {
            return Err(LebFault::Bits);
        }
        Ok(b)
    } else if bits <= 7 {
        Err(LebFault::Long)
    } else {
        let high = read_unsigned(bytes, at, bits - 7)?;
        Ok(b - 128 + 128 * high)
    }
}

// The number of so many bits of two's complement at this place.
#[tactic(auto, using(crate::proofs::LebLemmas::signed_reading))]
fn read_signed(bytes: &[u8], at: &mut usize, bits: u32) -> Result<u64, LebFault>
    requires place { at.old ≤ length bytes.now }
    requires bits { bits ≤ 64 }
    requires some { 1 ≤ bits }
    ensures exact { (result, at.new) ≡ signed_at bits (drop at.old bytes.now) at.old }
    ensures place { at.new ≤ length bytes.now }
    ensures fits { IfOk result (λ n. n < 2 ^ bits) }
{
    if *at == bytes.len() {
        return Err(LebFault::Short);
    }
    let b = bytes[*at] as u64;
    *at += 1;
    if b < 128 {
        last_of_signed(b, bits)
    } else if bits <= 7 {
        Err(LebFault::Long)
    } else {
        let high = read_signed(bytes, at, bits - 7)?;
        Ok(b - 128 + 128 * high)
    }
}

// The number of a signed spelling's last byte.
fn last_of_signed(b: u64, bits: u32) -> Result<u64, LebFault>
    requires low { b < 128 }
    requires bits { bits ≤ 64 }
    requires some { 1 ≤ bits }
    ensures exact { result ≡ last_signed bits b }
    ensures fits { IfOk result (λ n. n < 2 ^ bits) }
{
    let half = 1u64 << (bits - 1);
    if b < 64 {
        if b < half { Ok(b) } else { Err(LebFault::Bits) }
    } else if b + half.min(128) < 128 {
        Err(LebFault::Bits)
    } else {
        Ok(half - (128 - b) + half)
    }
}

/// The shortest spelling of a number (standard, section 5.2.2): ten bytes at most. Contracts see the bytes.
#[derive(Drop)]
pub struct Spelling {
    room: [u8; 10],
    used: usize,
}

impl Model for Spelling {
    ghost use Rattle.std.specs.Prelude.{List, ℕ, take, ◌≤◌};

    ghost Value = { List ℕ };

    ghost view = { λ s. take s.used s.room };

    ghost invariant = { λ s. s.used ≤ 10 };
}

impl Spelling {
    /// The spelling of an unsigned number.
    #[tactic(auto, using(crate::proofs::UnsignedSpelling::writing))]
    pub fn of_unsigned(n: u64) -> Spelling
        ensures { result ≡ shortest n }
    {
        let mut text = Spelling::none();
        let mut rest = n;
        while rest >= 128 {
            text.push((rest % 128) as u8 + 128);
            rest /= 128;
        }
        text.push(rest as u8);
        text
    }

    /// The spelling of a signed number of so many bits, given in two's complement.
    #[tactic(auto, using(crate::proofs::SignedSpelling::signed_writing))]
    pub fn of_signed(n: u64, bits: u32) -> Spelling
        requires few { bits ≤ 64 }
        requires some { 1 ≤ bits }
        requires fits { n < 2 ^ bits }
        ensures { result ≡ shortest_signed bits n }
    {
        let mut text = Spelling::none();
        let mut rest = n;
        let mut width = bits;
        loop {
            match as_signed_byte(rest, width) {
                Some(last) => {
                    text.push(last);
                    return text;
                }
                None => text.push((rest % 128) as u8 + 128),
            }
            rest /= 128;
            width -= 7;
        }
    }

    /// The bytes.
    pub fn as_slice(&self) -> &[u8]
        ensures bytes { result.now ≡ self.now }
        ensures few { length result.now ≤ 10 }
    {
        &self.room[..self.used]
    }

    // No byte.
    fn none() -> Spelling
        ensures { result ≡ [] }
    {
        Spelling {
            room: [0; 10],
            used: 0,
        }
    }

    // Appends a byte.
    fn push(&mut self, b: u8)
        requires { length self.old < 10 }
        ensures { self.new ≡ self.old ++ b ∷ [] }
    {
        self.room[self.used] = b;
        self.used += 1;
    }
}

// The one byte that spells a signed number of so many bits, where one does.
fn as_signed_byte(n: u64, bits: u32) -> Option<u8>
    requires few { bits ≤ 64 }
    requires some { 1 ≤ bits }
    requires fits { n < 2 ^ bits }
    ensures { MatchOption result (IsLong bits n) (IsOneByte bits n) }
{
    let half = 1u64 << (bits - 1);
    if n < half {
        if n < 64 { Some(n as u8) } else { None }
    } else if n - half + 64 >= half {
        Some((n - half + 128 - half) as u8)
    } else {
        None
    }
}

/// Appends the shortest spelling of an unsigned number, or leaves `out` as before.
pub fn write_u32(_alloc: Global, out: &mut Vec<u8>, v: u32) -> Result<(), AllocError>
    ensures ok { OnOk result (out.new.items ≡ out.old.items ++ shortest v) }
    ensures err { OnErr result (out.new.items ≡ out.old.items) }
{
    out.extend_from_slice(Spelling::of_unsigned(v as u64).as_slice())
}

/// Appends the shortest spelling of a signed number of 32 bits, or leaves `out` as before.
pub fn write_s32(_alloc: Global, out: &mut Vec<u8>, v: i32) -> Result<(), AllocError>
    ensures ok { OnOk result (out.new.items ≡ out.old.items ++ shortest_signed 32 (cast_unsigned w32 v)) }
    ensures err { OnErr result (out.new.items ≡ out.old.items) }
{
    out.extend_from_slice(Spelling::of_signed(v.cast_unsigned() as u64, 32).as_slice())
}

/// Appends the shortest spelling of a signed number of 64 bits, or leaves `out` as before.
pub fn write_s64(_alloc: Global, out: &mut Vec<u8>, v: i64) -> Result<(), AllocError>
    ensures ok { OnOk result (out.new.items ≡ out.old.items ++ shortest_signed 64 (cast_unsigned w64 v)) }
    ensures err { OnErr result (out.new.items ≡ out.old.items) }
{
    out.extend_from_slice(Spelling::of_signed(v.cast_unsigned(), 64).as_slice())
}

/// The laws of unsigned numbers: reading answers exactly what the bytes spell, no spelling begins another,
/// and the shortest spelling is one, than which none is shorter.
pub fn unsigned_spelling_laws()
    ensures read_is_spelled { (bits : ℕ) (bytes : List ℕ) (at n end : ℕ) → ((i : ℕ) → slice_index bytes i < 256)
        → unsigned_at bits bytes at ≡ (Ok n, end) → Front (λ front. IsUnsigned bits front n) bytes at end }
    ensures spelled_is_read { (bits : ℕ) (front rest : List ℕ) (n at : ℕ) → IsUnsigned bits front n
        → unsigned_at bits (front ++ rest) at ≡ (Ok n, at + length front) }
    ensures one_form { (bits : ℕ) (a b x y : List ℕ) (m n : ℕ) → IsUnsigned bits a m → IsUnsigned bits b n
        → a ++ x ≡ b ++ y → (m ≡ n) × (a ≡ b) }
    ensures shortest_spells { (bits n : ℕ) → n < 2 ^ 64 → n < 2 ^ bits → IsUnsigned bits (shortest n) n }
    ensures none_is_shorter { (bits n : ℕ) (front : List ℕ) → IsUnsigned bits front n → length (shortest n) ≤ length front }
{}

/// The laws of signed numbers, as those of unsigned ones.
pub fn signed_spelling_laws()
    ensures read_is_spelled { (bits : ℕ) (bytes : List ℕ) (at n end : ℕ) → ((i : ℕ) → slice_index bytes i < 256)
        → signed_at bits bytes at ≡ (Ok n, end) → Front (λ front. IsSigned bits front n) bytes at end }
    ensures spelled_is_read { (bits : ℕ) (front rest : List ℕ) (n at : ℕ) → IsSigned bits front n
        → signed_at bits (front ++ rest) at ≡ (Ok n, at + length front) }
    ensures one_form { (bits : ℕ) (a b x y : List ℕ) (m n : ℕ) → IsSigned bits a m → IsSigned bits b n
        → a ++ x ≡ b ++ y → (m ≡ n) × (a ≡ b) }
    ensures shortest_spells { (bits n : ℕ) → 1 ≤ bits → bits ≤ 64 → n < 2 ^ bits → IsSigned bits (shortest_signed bits n) n }
    ensures none_is_shorter { (bits n : ℕ) (front : List ℕ) → IsSigned bits front n → length (shortest_signed bits n) ≤ length front }
{}
