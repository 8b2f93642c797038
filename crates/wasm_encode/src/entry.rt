//! How an entry of a vector is written, and vectors of such entries (standard, section 5.1.3).

ghost use Rattle.std.specs.Prelude.{◌≡◌, ◌<◌, ◌^◌, ◌++◌, ℕ, List, length, OnOk, All};
ghost use Rattle.wa_types.specs.Encoding.{vector};

use crate::numbers::{put_unsigned, unsigned_len};
use bytes::BytesMut;
use std::alloc::AllocError;

/// How one entry of a vector is written.
pub trait Entry {
    type Item;

    // the entry's bytes
    ghost bytes: { Self.Item → List ℕ };

    // what has to hold of an entry that is written
    ghost fits: { Self.Item → Type 0 };

    /// How many bytes the entry takes.
    fn size(item: &Self::Item) -> u64
        requires few { length (bytes item.now) < 2 ^ 64 }
        requires fits { fits item.now }
        ensures { result ≡ length (bytes item.now) };

    /// Appends the entry.
    fn put(out: &mut BytesMut, item: &Self::Item) -> Result<(), AllocError>
        requires { fits item.now }
        ensures { OnOk result (out.new.items ≡ out.old.items ++ bytes item.now) };
}

/// How many bytes a vector takes (standard, section 5.1.3).
#[tactic(auto, using(crate::proofs::Vectors::measuring))]
pub fn vector_len<E: Entry>(items: &[E::Item]) -> u64
    requires few { length (vector E.bytes items.now) < 2 ^ 64 }
    requires fits { All E.fits items.now }
    ensures { result ≡ length (vector E.bytes items.now) }
{
    let mut len = unsigned_len(items.len() as u64);
    for item in items {
        len += E::size(item);
    }
    len
}

/// Appends a vector (standard, section 5.1.3).
#[tactic(auto, using(crate::proofs::Vectors::putting))]
pub fn put_vector<E: Entry>(out: &mut BytesMut, items: &[E::Item]) -> Result<(), AllocError>
    requires { All E.fits items.now }
    ensures { OnOk result (out.new.items ≡ out.old.items ++ vector E.bytes items.now) }
{
    put_unsigned(out, items.len() as u64)?;
    for item in items {
        E::put(out, item)?;
    }
    Ok(())
}
