//! Slots and result locals as names: the local of each type at each height or depth.

ghost use Rattle.std.specs.Prelude.{◌≡◌, ◌+◌, length};
ghost use Rattle.flat_laws.specs.Flatten.{result_local, slot};
ghost use Rattle.flatten.specs.Numbers.{local_of};

use std::marker::Model;
use wa_types::ValType;

/// A type at a number: a height or a depth.
#[derive(Clone, Copy)]
pub struct TypeAt {
    pub number: usize,
    pub ty: ValType,
}

/// The locals for an i32 and for an i64 at one number.
#[derive(Clone, Copy)]
pub struct Spot {
    pub narrow: u32,
    pub wide: u32,
}

/// Types at numbers, each with a local of its own. Contracts see the first of these locals and the pairs.
#[derive(Drop)]
pub struct Numbered {
    pub first: u32,
    /// One more than the last local.
    pub end: u32,
    pub pairs: Vec<TypeAt>,
    pub spots: Vec<Spot>,
}

impl Model for Numbered {
    ghost use Rattle.std.specs.Prelude.{◌≡◌, ◌+◌, ℕ, length, map};
    ghost use Rattle.wa_types.specs.declared.values.ValType.{ValType as AType};
    ghost use Rattle.flat_laws.specs.Flatten.{place};
    ghost use Rattle.flatten.specs.Numbers.{pair_of, spot_at, Locals};

    ghost Value = { Locals };

    ghost view = { λ s. record { first = s.first; pairs = map pair_of s.pairs.items } };

    ghost invariant = { λ s. (s.end ≡ s.first + length s.pairs.items) × ((number : ℕ) (t : AType) → spot_at s.spots.items s.end number t ≡ s.first + place number t (map pair_of s.pairs.items)) };
}

impl Numbered {
    /// One more than the last of these locals.
    #[tactic(auto, using(crate::proofs::NumberLemmas::finding))]
    pub fn end(&self) -> u32
        ensures { result ≡ self.now.first + length self.now.pairs }
    {
        self.end
    }

    /// The local for this type at this number. Where there is none, one more than the last.
    #[tactic(auto, using(crate::proofs::NumberLemmas::finding))]
    pub fn local(&self, number: usize, ty: ValType) -> u32
        ensures { result ≡ local_of self.now number ty }
    {
        if number >= self.spots.len() {
            return self.end;
        }
        let spot = self.spots[number];
        match ty {
            ValType::I32 => spot.narrow,
            ValType::I64 => spot.wide,
        }
    }
}

/// The slots and the result locals of a function. Contracts see the names of the definition.
#[derive(Drop)]
pub struct Names {
    pub slots: Numbered,
    pub results: Numbered,
}

impl Model for Names {
    ghost use Rattle.std.specs.Prelude.{◌≡◌, ◌+◌, length};
    ghost use Rattle.flat_laws.specs.Flatten.{Names as FlatNames};

    ghost Value = { FlatNames };

    ghost view = { λ s. record { first = s.slots.first; slots = s.slots.pairs; results = s.results.pairs } };

    ghost invariant = { λ s. s.results.first ≡ s.slots.first + length s.slots.pairs };
}

impl Names {
    /// The slot of an operand of this type at this height.
    #[tactic(auto, using(crate::proofs::NumberLemmas::naming))]
    pub fn slot(&self, height: usize, ty: ValType) -> u32
        ensures { result ≡ slot self.now height ty }
    {
        self.slots.local(height, ty)
    }

    /// The local of a result of this type of a construct at this depth.
    #[tactic(auto, using(crate::proofs::NumberLemmas::naming))]
    pub fn result(&self, depth: usize, ty: ValType) -> u32
        ensures { result ≡ result_local self.now depth ty }
    {
        self.results.local(depth, ty)
    }
}
