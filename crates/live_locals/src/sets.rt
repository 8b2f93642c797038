//! Sets of locals: one answer for each local.

ghost use Rattle.std.specs.Prelude.{◌≡◌, ◌<◌, ◌∷◌, ◌||◌, [], ℕ, false, length, IfOk, replicate};
ghost use Rattle.wa_types.specs.Syntax.{local_get, local_set, unreachable, done, plain};
ghost use Rattle.run_theory.specs.Flat.{got, all_got, set_to, slots_got, result_got};
ghost use Rattle.live_locals.specs.Sets.{has, told_by, Joined, TellsAnywhere};

use std::alloc::{AllocError, Global};
use wa_model::Operand;

/// The set of no local, of so many.
pub fn none_of(alloc: Global, count: usize) -> Result<Vec<bool>, AllocError>
    ensures { IfOk result (λ v. v.items ≡ replicate count false) }
{
    let mut set = Vec::with_capacity(alloc, count)?;
    set.resize(count, false)?;
    Ok(set)
}

/// An equal set.
pub fn copied(alloc: Global, set: &[bool]) -> Result<Vec<bool>, AllocError>
    ensures { IfOk result (λ v. v.items ≡ set.now) }
{
    Vec::from_slice(alloc, set)
}

/// A local is read.
pub(crate) fn read(set: &mut [bool], local: u32)
    ensures { TellsAnywhere set.old set.new (plain (local_get local) done) }
{
    if (local as usize) < set.len() {
        set[local as usize] = true;
    }
}

/// A local is written.
pub(crate) fn write(set: &mut [bool], local: u32)
    ensures { TellsAnywhere set.old set.new (plain (local_set local) done) }
{
    if (local as usize) < set.len() {
        set[local as usize] = false;
    }
}

/// The local that is told is written.
pub fn write_told(set: &mut [bool], to: Option<u32>)
    ensures { TellsAnywhere set.old set.new (set_to to done) }
{
    if let Some(local) = to {
        write(set, local);
    }
}

/// The local that is told is read.
pub fn read_told(set: &mut [bool], from: Option<u32>)
    ensures { TellsAnywhere set.old set.new (result_got from) }
{
    if let Some(local) = from {
        read(set, local);
    }
}

/// An operand is read.
pub fn read_operand(set: &mut [bool], operand: Operand)
    ensures { TellsAnywhere set.old set.new (got operand done) }
{
    match operand {
        Operand::Local(local) => read(set, local),
        Operand::Const(_) => {}
    }
}

/// Operands are read.
pub(crate) fn read_operands(set: &mut [bool], operands: &[Operand])
    ensures { TellsAnywhere set.old set.new (all_got operands.now done) }
{
    let mut left = operands.len();
    while left > 0 {
        left -= 1;
        read_operand(set, operands[left]);
    }
}

/// Locals are read.
pub fn read_slots(set: &mut [bool], slots: &[u32])
    ensures { TellsAnywhere set.old set.new (slots_got slots.now done) }
{
    let mut left = slots.len();
    'slots: while left > 0 {
        left -= 1;
        read(set, slots[left]);
    }
}

/// Control doesn't go on.
pub(crate) fn empty(set: &mut [bool])
    ensures { TellsAnywhere set.old set.new (plain unreachable done) }
{
    for told in set.iter_mut() {
        *told = false;
    }
}

/// What another set has is put in.
#[inline(never)]
pub fn join(set: &mut [bool], other: &[bool])
    ensures { (x : ℕ) → x < length set.old → has set.new x ≡ (has other.now x || has set.old x) }
{
    let count = set.len().min(other.len());
    for local in 0..count {
        if other[local] {
            set[local] = true;
        }
    }
}

/// What is told for a label's target is put in.
pub(crate) fn join_label(set: &mut [bool], tos: &[Vec<bool>], label: u32)
    ensures { Joined (told_by tos.now) (label ∷ []) set.old set.new }
{
    let label = label as usize;
    if label < tos.len() {
        join(set, &tos[tos.len() - 1 - label]);
    }
}

/// What is told for these labels' targets is put in.
pub(crate) fn join_labels(set: &mut [bool], tos: &[Vec<bool>], labels: &[u32])
    ensures { Joined (told_by tos.now) labels.now set.old set.new }
{
    let mut left = labels.len();
    while left > 0 {
        left -= 1;
        join_label(set, tos, labels[left]);
    }
}
