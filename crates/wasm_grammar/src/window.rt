//! A stretch of a file.
ghost use Rattle.std.specs.Prelude.{◌≡◌, [], ◌++◌, ◌+◌, ◌-◌, ◌<◌, ◌≤◌, ◌^◌, length, get_or, take, drop};

use crate::passed::Passed;
use std::marker::Model;

/// The bytes of a file from a place on, as far as they have come. Contracts see all bytes from the file's first one on, and that place.
#[derive(Drop)]
pub struct Window<'a> {
    bytes: &'a [u8],
    base: usize,
    before: &'a Passed,
}

impl<'a> Model for Window<'a> {
    ghost use Rattle.std.specs.Prelude.{◌≡◌, ◌++◌, ◌+◌, ◌<◌, ◌^◌, length};
    ghost use Rattle.wasm_grammar.specs.Input.{Input, input_of};

    ghost Value = { Input };

    ghost view = { λ w. input_of w.before.now.bytes w.bytes.now w.base };

    ghost invariant = { λ w. (length w.before.now.bytes ≡ w.base) × (w.base + length w.bytes.now < 2 ^ 63) };
}

impl<'a> Window<'a> {
    ghost use Rattle.wasm_grammar.specs.Input.{input_of};

    /// These bytes behind those in front of their place.
    pub fn new(before: &'a Passed, base: usize, bytes: &'a [u8]) -> Window<'a>
        requires base { length before.now.bytes ≡ base }
        requires fits { base + length bytes.now < 2 ^ 63 }
        ensures { result ≡ input_of before.now.bytes bytes.now base }
    {
        Window {
            bytes,
            base,
            before,
        }
    }

    /// A whole file, with nothing in front.
    pub fn whole(nothing: &'a Passed, bytes: &'a [u8]) -> Window<'a>
        requires { nothing.now.bytes ≡ [] }
        ensures { result ≡ input_of [] bytes.now 0 }
    {
        Window {
            bytes,
            base: 0,
            before: nothing,
        }
    }

    /// The same, to be held where bytes are looked at one by one.
    #[inline(always)]
    pub fn again(&self) -> Window<'a>
        ensures { result ≡ self.now }
    {
        Window {
            bytes: self.bytes,
            base: self.base,
            before: self.before,
        }
    }

    /// How many bytes have come.
    #[inline(always)]
    pub fn len(&self) -> usize
        ensures len { result ≡ length self.now.all }
        ensures fits { result < 2 ^ 63 }
    {
        self.base + self.bytes.len()
    }

    /// The byte at a place.
    #[inline(always)]
    pub fn at(&self, place: usize) -> u8
        requires from { self.now.base ≤ place }
        requires within { place < length self.now.all }
        ensures { result ≡ get_or self.now.all place 0 }
    {
        self.bytes[place - self.base]
    }

    /// The bytes from one place up to another.
    #[inline(always)]
    pub fn between(&self, from: usize, to: usize) -> &'a [u8]
        requires from { self.now.base ≤ from }
        requires ahead { from ≤ to }
        requires within { to ≤ length self.now.all }
        ensures { result.now ≡ take (to - from) (drop from self.now.all) }
    {
        &self.bytes[from - self.base..to - self.base]
    }
}
