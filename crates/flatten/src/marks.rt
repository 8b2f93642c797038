//! Which types were found at which numbers, and the locals that they get.

ghost use Rattle.std.specs.Prelude.{◌≡◌, ◌+◌, ◌<◌, ◌≤◌, ◌^◌, ◌||◌, ◌++◌, [], ℕ, length, map, IfOk, OnOk};
ghost use Rattle.wa_types.specs.declared.values.ValType.{ValType as AType};
ghost use Rattle.flatten.specs.Numbers.{bit, is_marked, pair_of, pairs_in, pick, same_at, spots_in, with_one};
ghost use Rattle.wa_types.specs.Frames.{pair_onto};

use crate::numbers::{Numbered, Spot, TypeAt};
use std::alloc::{AllocError, Global};
use wa_types::ValType;

/// Whether an i32 and an i64 were found at one number.
#[derive(Clone, Copy)]
pub struct Seen {
    pub narrow: bool,
    pub wide: bool,
}

/// Makes the list so long that it has this number. Nothing else is found then.
#[tactic(auto, using(crate::proofs::MarkLemmas::growing))]
fn grow(seen: &mut Vec<Seen>, number: usize) -> Result<(), AllocError>
    ensures long { OnOk result (number < length seen.new.items) }
    ensures same { (n : ℕ) (t : AType) → is_marked seen.new.items n t ≡ is_marked seen.old.items n t }
    ensures pairs { (n : ℕ) → pairs_in n seen.new.items ≡ pairs_in n seen.old.items }
{
    while seen.len() <= number {
        seen.push(Seen {
            narrow: false,
            wide: false,
        })?;
    }
    Ok(())
}

/// Marks that this type was found at this number.

pub fn mark(seen: &mut Vec<Seen>, number: usize, ty: ValType) -> Result<(), AllocError>
    ensures marked { OnOk result ((n : ℕ) (t : AType) → is_marked seen.new.items n t ≡ (same_at n t number ty || is_marked seen.old.items n t)) }
    ensures few { OnOk result (length (pairs_in 0 seen.new.items) ≤ length (pairs_in 0 seen.old.items) + 1) }
{
    grow(seen, number)?;
    let here = seen[number];
    seen[number] = with_type(here, ty);
    Ok(())
}

/// With this type too.
fn with_type(seen: Seen, ty: ValType) -> Seen
    ensures { result ≡ with_one seen ty }
{
    match ty {
        ValType::I32 => Seen {
            narrow: true,
            wide: seen.wide,
        },
        ValType::I64 => Seen {
            narrow: seen.narrow,
            wide: true,
        },
    }
}

/// The pairs that were found, by number, i32 before i64.
fn pairs_of(alloc: Global, seen: &[Seen]) -> Result<Vec<TypeAt>, AllocError>
    ensures { IfOk result (λ v. map pair_of v.items ≡ pairs_in 0 seen.now) }
{
    let mut pairs = Vec::new(alloc);
    for number in 0..seen.len() {
        let here = seen[number];
        put_pair(&mut pairs, here.narrow, number, ValType::I32)?;
        put_pair(&mut pairs, here.wide, number, ValType::I64)?;
    }
    Ok(pairs)
}

/// Puts a pair, where it was found.
fn put_pair(
    pairs: &mut Vec<TypeAt>,
    found: bool,
    number: usize,
    ty: ValType,
) -> Result<(), AllocError>
    ensures { OnOk result (map pair_of pairs.new.items ≡ map pair_of pairs.old.items ++ pair_onto found number ty []) }
{
    if found {
        pairs.push(TypeAt { number, ty })?;
    }
    Ok(())
}

/// The locals of what was found, from the first one on.
fn spots_of(alloc: Global, first: u32, end: u32, seen: &[Seen]) -> Result<Vec<Spot>, AllocError>
    requires { first + length (pairs_in 0 seen.now) ≡ end }
    ensures { IfOk result (λ v. v.items ≡ spots_in end first seen.now) }
{
    let mut spots = Vec::new(alloc);
    let mut next = first;
    for here in seen {
        let narrow = next_local(here.narrow, &mut next, end);
        let wide = next_local(here.wide, &mut next, end);
        spots.push(Spot { narrow, wide })?;
    }
    Ok(spots)
}

/// The next local where told, and else one more than the last.
fn next_local(found: bool, next: &mut u32, end: u32) -> u32
    requires { next.old + bit found ≤ end }
    ensures local { result ≡ pick found next.old end }
    ensures next { next.new ≡ next.old + bit found }
{
    if found {
        let local = *next;
        *next += 1;
        return local;
    }
    end
}

/// What was found, with its locals from the first one on.
pub fn numbered(alloc: Global, first: u32, seen: &[Seen]) -> Result<Numbered, AllocError>
    requires { first + length (pairs_in 0 seen.now) < 2 ^ 32 }
    ensures { IfOk result (λ v. v ≡ record { first = first; pairs = pairs_in 0 seen.now }) }
{
    let pairs = pairs_of(alloc, seen)?;
    let end = first + pairs.len() as u32;
    let spots = spots_of(alloc, first, end, seen)?;
    Ok(Numbered {
        first,
        end,
        pairs,
        spots,
    })
}
