//! Bytes that came, as proofs know them. They take no memory.
ghost use Rattle.std.specs.Prelude.{◌≡◌, ℕ, List, [], ◌++◌};
ghost use Rattle.std.specs.Coded.{coded_list, coded_ℕ};
ghost use base.Fml.{ftrue};

use std::marker::Model;

/// The bytes of a file in front of a place. They exist only in proofs.
#[derive(Drop)]
pub struct Passed {
    pub ghost bytes: { List ℕ } by { coded_list coded_ℕ },
}

impl Model for Passed {
    ghost also_owns = { λ _. ftrue };
}

/// Some bytes that come next.
#[derive(Drop)]
pub struct Piece<'a> {
    pub bytes: &'a [u8],
}

impl Passed {
    /// No byte.
    pub fn none() -> Passed
        ensures { result.bytes ≡ [] }
    {
        Passed {}
    }

    /// The same with some more behind.
    #[inline(always)]
    pub fn then(&self, _piece: &Piece<'_>) -> Passed
        ensures { result.bytes ≡ self.now.bytes ++ _piece.now.bytes.now }
    {
        Passed {}
    }
}
