//! Slots as pairs: the heights and types of the operands that stand at some point.

ghost use Rattle.std.specs.Prelude.{◌≡◌, ◌++◌, ◌<◌, ◌^◌, [], reverse, IfOk, OnOk};
ghost use Rattle.std.specs.List.{list_any};
ghost use Rattle.wa_types.specs.Encoding.{same_type};
ghost use Rattle.wa_types.specs.Frames.{greatest, pair_onto, pairs_from, stands_at};
ghost use Rattle.frame_sizes.specs.Points.{lists_of};
ghost use Rattle.frame_sizes.specs.Slots.{pairs_of};

use std::alloc::{AllocError, Global};
use wa_types::ValType;

/// A type at a height.
#[derive(Clone, Copy)]
pub struct Pair {
    pub number: usize,
    pub ty: ValType,
}

fn same_types(first: ValType, second: ValType) -> bool
    ensures { result ≡ same_type first second }
{
    match (first, second) {
        (ValType::I32, ValType::I32) => true,
        (ValType::I64, ValType::I64) => true,
        _ => false,
    }
}

/// Whether an operand of this type stands at this height.
#[tactic(auto, using(crate::proofs::SlotLemmas::reversing))]
pub fn stands_in(ops: &[ValType], height: usize, ty: ValType) -> bool
    ensures { result ≡ stands_at height ty (reverse ops.now) }
{
    match ops.get(height).copied() {
        None => false,
        Some(found) => same_types(ty, found),
    }
}

/// The most operands at a point.
#[tactic(auto, using(crate::proofs::SlotLemmas::highest))]
fn highest(points: &[Vec<ValType>]) -> usize
    ensures value { result ≡ greatest (lists_of points.now) }
    ensures few { result < 2 ^ 63 }
{
    let mut most = 0;
    for ops in points {
        most = ops.len().max(most);
    }
    most
}

/// Whether an operand of this type stands at this height at some point.
#[tactic(auto, using(crate::proofs::SlotLemmas::standing))]
fn stands(points: &[Vec<ValType>], height: usize, ty: ValType) -> bool
    ensures { result ≡ list_any (stands_at height ty) (lists_of points.now) }
{
    for ops in points {
        if stands_in(ops, height, ty) {
            return true;
        }
    }
    false
}

#[tactic(auto, using(crate::proofs::SlotLemmas::pushing))]
fn put_pair(
    pairs: &mut Vec<Pair>,
    stands: bool,
    number: usize,
    ty: ValType,
) -> Result<(), AllocError>
    ensures { OnOk result (pairs_of pairs.new.items ≡ pairs_of pairs.old.items ++ pair_onto stands number ty []) }
{
    if stands {
        pairs.push(Pair { number, ty })?;
        return Ok(());
    }
    Ok(())
}

/// A pair for each height and type of an operand at some point, by height, i32 before i64.
pub fn slots(alloc: Global, points: &[Vec<ValType>]) -> Result<Vec<Pair>, AllocError>
    ensures { IfOk result (λ v. pairs_of v.items ≡ pairs_from (λ h t. list_any (stands_at h t) (lists_of points.now)) 0 (greatest (lists_of points.now))) }
{
    let mut pairs = Vec::new(alloc);
    for height in 0..highest(points) {
        let narrow = stands(points, height, ValType::I32);
        put_pair(&mut pairs, narrow, height, ValType::I32)?;
        let wide = stands(points, height, ValType::I64);
        put_pair(&mut pairs, wide, height, ValType::I64)?;
    }
    Ok(pairs)
}
