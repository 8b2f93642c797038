//! `Cursor`: a place in bytes that are known to spell something, read on from there.

ghost use Rattle.std.specs.Prelude.{◌≡◌, ℕ, ◌+◌, ◌<◌, ◌^◌, [], ◌∷◌, ◌++◌, length, IfOk, OnOk, OnErr, IsTrue, ◌↔◌};
ghost use Rattle.leb_numbers.specs.Leb.{IsUnsigned, IsSigned};
ghost use Rattle.wasm_grammar.specs.Places.{Onward, ReadsNumber, place_at, place_in};

use crate::numbers;
use std::marker::Model;
use thiserror::Error;
use wa_types::LebFault;

/// The bytes don't spell what was to be read.
#[derive(Clone, Copy, Debug, PartialEq, Eq, Error)]
#[error("not spelled")]
pub struct NotSpelled;

impl From<LebFault> for NotSpelled {
    fn from(_error: LebFault) -> NotSpelled {
        NotSpelled
    }
}

/// A place in bytes that are known to spell something. Contracts see its offset and the bytes from there on.
#[derive(Drop)]
pub struct Cursor<'a> {
    bytes: &'a [u8],
    at: usize,
    // The offset of the first byte.
    first: usize,
}

impl<'a> Model for Cursor<'a> {
    ghost use Rattle.std.specs.Prelude.{length, ◌≤◌};
    ghost use Rattle.wasm_grammar.specs.Places.{Place, place_from};

    ghost Value = { Place };

    ghost view = { λ s. place_from s.first s.bytes.now s.at };

    ghost invariant = { λ s. s.at ≤ length s.bytes.now };
}

impl<'a> Cursor<'a> {
    /// The place at the first byte.
    pub fn new(bytes: &'a [u8]) -> Cursor<'a>
        ensures { result ≡ place_in bytes.now 0 }
    {
        Cursor {
            bytes,
            at: 0,
            first: 0,
        }
    }

    /// The place at the first of these bytes, whose offset this is.
    pub fn new_at(first: usize, bytes: &'a [u8]) -> Cursor<'a>
        ensures { result ≡ place_at first bytes.now }
    {
        Cursor {
            bytes,
            at: 0,
            first,
        }
    }

    /// Whether no byte is left.
    pub fn is_at_end(&self) -> bool
        ensures { IsTrue result ↔ (self.now.left ≡ []) }
    {
        self.at == self.bytes.len()
    }

    /// The bytes that are left.
    pub fn rest(&self) -> &'a [u8]
        ensures { result.now ≡ self.now.left }
    {
        &self.bytes[self.at..]
    }

    /// The next byte.
    pub fn byte(&mut self) -> Result<u8, NotSpelled>
        ensures ok { IfOk result (λ b. self.old.left ≡ b ∷ self.new.left) }
        ensures at { IfOk result (λ b. self.new.at ≡ self.old.at + 1) }
        ensures err { OnErr result (self.old.left ≡ []) }
        ensures onward { Onward self.old self.new }
    {
        if self.at == self.bytes.len() {
            return Err(NotSpelled);
        }
        let byte = self.bytes[self.at];
        self.at += 1;
        Ok(byte)
    }

    /// An unsigned number of 32 bits (standard, section 5.2.2).
    pub fn number(&mut self) -> Result<u32, NotSpelled>
        ensures read { ReadsNumber (IsUnsigned 32) result self.old self.new }
        ensures fits { IfOk result (λ n. n < 2 ^ 32) }
        ensures falls { OnOk result (length self.new.left < length self.old.left) }
        ensures onward { Onward self.old self.new }
    {
        Ok(numbers::unsigned_32(self.bytes, &mut self.at)?)
    }

    /// A signed number of 32 bits, in two's complement.
    pub fn signed_32(&mut self) -> Result<u32, NotSpelled>
        ensures read { ReadsNumber (IsSigned 32) result self.old self.new }
        ensures onward { Onward self.old self.new }
    {
        let n = numbers::signed_32(self.bytes, &mut self.at)?;
        Ok(n.cast_unsigned())
    }

    /// A signed number of 64 bits, in two's complement.
    pub fn signed_64(&mut self) -> Result<u64, NotSpelled>
        ensures read { ReadsNumber (IsSigned 64) result self.old self.new }
        ensures onward { Onward self.old self.new }
    {
        let n = numbers::signed_64(self.bytes, &mut self.at)?;
        Ok(n.cast_unsigned())
    }

    /// So many bytes.
    pub fn take(&mut self, count: u32) -> Result<&'a [u8], NotSpelled>
        ensures ok { IfOk result (λ s. self.old.left ≡ s.now ++ self.new.left) }
        ensures len { IfOk result (λ s. length s.now ≡ count) }
        ensures at { IfOk result (λ s. self.new.at ≡ self.old.at + count) }
        ensures err { OnErr result (length self.old.left < count) }
        ensures onward { Onward self.old self.new }
    {
        let count = count as usize;
        let rest = &self.bytes[self.at..];
        if rest.len() < count {
            return Err(NotSpelled);
        }
        let (front, _) = rest.split_at(count);
        self.at += count;
        Ok(front)
    }
}
