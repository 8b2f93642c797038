//! How an entry of a vector is read, and vectors of such entries (standard, section 5.1.3).

ghost use Rattle.std.specs.Prelude.{◌≡◌, ℕ, ◌<◌, ◌≤◌, List, length, map, OnOk, OnErr};
ghost use Rattle.wa_types.specs.Spells.{Vector};
ghost use Rattle.wasm_build.specs.Builds.{Builds, SpelledBehind, SpelledOnto};

use crate::build_types::BuildFault;
use std::alloc::Global;
use wasm_grammar::Cursor;

/// How one entry of a vector is read.
pub trait Entry {
    type Item: Drop;

    // the entry as plain data
    ghost plain: { Type 0 };

    ghost view: { Self.Item → plain };

    // that the bytes at an offset spell this entry
    ghost spelled: { plain → ℕ → List ℕ → Type 0 };

    /// The entry that begins here.
    fn read(alloc: Global, input: &mut Cursor<'_>) -> Result<Self::Item, BuildFault>
        ensures built { Builds view spelled result input.old input.new }
        ensures left { length input.new.left ≤ length input.old.left }
        ensures falls { OnOk result (length input.new.left < length input.old.left) };
}

/// Appends the entry that begins here to these. After an `Err` they are as before.
#[inline(always)]
pub fn put<E: Entry>(
    alloc: Global,
    input: &mut Cursor<'_>,
    items: &mut Vec<E::Item>,
) -> Result<(), BuildFault>
    ensures built { Builds (λ (_ : Unit {0}). map E.view items.new.items) (SpelledOnto E.spelled (map E.view items.old.items)) result input.old input.new }
    ensures kept { OnErr result (items.new.items ≡ items.old.items) }
    ensures left { length input.new.left ≤ length input.old.left }
    ensures falls { OnOk result (length input.new.left < length input.old.left) }
{
    let item = E::read(alloc, input)?;
    items.push(item)?;
    Ok(())
}

// Appends the entries of a vector (standard, section 5.1.3) to these. After an `Err` only some of them may be there.
fn fill<E: Entry>(
    alloc: Global,
    input: &mut Cursor<'_>,
    items: &mut Vec<E::Item>,
) -> Result<(), BuildFault>
    ensures built { Builds (λ (_ : Unit {0}). map E.view items.new.items) (SpelledBehind E.spelled (map E.view items.old.items)) result input.old input.new }
    ensures left { length input.new.left ≤ length input.old.left }
{
    let count = input.number()?;
    for _index in 0..count {
        let item = E::read(alloc, input)?;
        items.push(item)?;
    }
    Ok(())
}

/// A vector (standard, section 5.1.3).
pub fn vector<E: Entry>(alloc: Global, input: &mut Cursor<'_>) -> Result<Vec<E::Item>, BuildFault>
    ensures built { Builds (λ v. map E.view v.items) (λ xs. Vector E.spelled xs) result input.old input.new }
    ensures left { length input.new.left ≤ length input.old.left }
{
    let mut items = Vec::new(alloc);
    fill::<E>(alloc, input, &mut items)?;
    Ok(items)
}
