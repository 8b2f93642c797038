//! Where flattening stands in a body: the slots of the operands, and the result locals of the labels.

ghost use Rattle.std.specs.Prelude.{◌≡◌, ◌<◌, ◌++◌, ◌∷◌, [], drop, length, reverse, slice_get, IfOk, OnOk};
ghost use Rattle.flat_laws.specs.Flatten.{top};
ghost use Rattle.flatten.specs.Emitting.{all_of, carried_to, first_or, onto_stmts, HoldsBelow};
ghost use Rattle.run_theory.specs.Flat.{Stmts};

use crate::numbers::Names;
use std::alloc::{AllocError, Global};
use wa_model::{Operand, Stmt};
use wasm_validate::Typing;

/// Where flattening stands in a body.
#[derive(Drop)]
pub struct Position<'m> {
    pub alloc: Global,
    /// The types of operands, and the labels.
    pub typing: Typing<'m>,
    /// The slot of each operand, the deepest first.
    pub slots: Vec<u32>,
    /// The result local of each label that has one, the outermost first.
    pub labels: Vec<Option<u32>>,
}

/// Puts the slot of the topmost operand to the others.
#[tactic(auto, using(crate::proofs::PositionLemmas::topping))]
pub fn push_slot(names: &Names, at: &mut Position) -> Result<u32, AllocError>
    requires { HoldsBelow names.now at.old }
    ensures slot { OnOk result (at.new.slots.items ≡ at.old.slots.items ++ top names.now (all_of at.old.typing) ∷ []) }
    ensures typing { at.new.typing ≡ at.old.typing }
    ensures result { IfOk result (λ s. s ≡ top names.now (all_of at.old.typing)) }
    ensures labels { at.new.labels ≡ at.old.labels }
{
    let types = at.typing.types();
    let height = types.len() - 1;
    let slot = names.slot(height, types[height]);
    at.slots.push(slot)?;
    Ok(slot)
}

/// The topmost slot; 0 where there is none.
#[tactic(auto, using(crate::proofs::PositionLemmas::slots_off))]
pub fn top_slot(slots: &[u32]) -> u32
    ensures { result ≡ first_or (reverse slots.now) }
{
    if slots.len() == 0 {
        return 0;
    }
    slots[slots.len() - 1]
}

/// Takes the topmost slot off.
#[tactic(auto, using(crate::proofs::PositionLemmas::slots_off))]
pub fn pop_slot(slots: &mut Vec<u32>) -> u32
    requires { 0 < length slots.old.items }
    ensures top { result ≡ first_or (reverse slots.old.items) }
    ensures rest { reverse slots.new.items ≡ drop 1 (reverse slots.old.items) }
{
    let top = top_slot(slots);
    slots.truncate(slots.len() - 1);
    top
}

/// Puts the move of a branch to the result local of its label, where it has one.
#[tactic(auto, using(crate::proofs::CarryLemmas::carrying))]
#[inline(never)]
pub fn put_carry(
    out: &mut Vec<Stmt>,
    labels: &[Option<u32>],
    label: u32,
    from: u32,
) -> Result<(), AllocError>
    requires { label < length labels.now }
    ensures { OnOk result ((rest : Stmts) → onto_stmts out.new.items rest ≡ onto_stmts out.old.items (carried_to (slice_get (reverse labels.now) label) from rest)) }
{
    match labels[labels.len() - 1 - label as usize] {
        None => Ok(()),
        Some(to) => {
            out.push(Stmt::Move {
                to,
                from: Operand::Local(from),
            })?;
            Ok(())
        }
    }
}
