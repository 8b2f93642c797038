//! Sets of locals in 64 worlds: a word for each local.

ghost use Rattle.std.specs.Prelude.{◌≡◌, ◌<◌, ◌∷◌, ◌||◌, [], ℕ, length, IfOk};
ghost use Rattle.wa_types.specs.Syntax.{local_get, local_set, unreachable, done, plain};
ghost use Rattle.run_theory.specs.Flat.{got, all_got, set_to, slots_got};
ghost use Rattle.live_locals.specs.Sets.{has};
ghost use Rattle.live_locals.specs.Words.{world, WordsJoined, WordsTell};

use std::alloc::{AllocError, Global};
use wa_model::Operand;

/// Equal sets.
pub(crate) fn copied(alloc: Global, set: &[u64]) -> Result<Vec<u64>, AllocError>
    ensures { IfOk result (λ v. v.items ≡ set.now) }
{
    Vec::from_slice(alloc, set)
}

/// A local is read.
pub(crate) fn read(set: &mut [u64], local: u32)
    ensures { WordsTell set.old set.new (plain (local_get local) done) }
{
    if (local as usize) < set.len() {
        set[local as usize] = u64::MAX;
    }
}

/// A local is written.
pub(crate) fn write(set: &mut [u64], local: u32)
    ensures { WordsTell set.old set.new (plain (local_set local) done) }
{
    if (local as usize) < set.len() {
        set[local as usize] = 0;
    }
}

/// The local that is told is written.
pub(crate) fn write_told(set: &mut [u64], to: Option<u32>)
    ensures { WordsTell set.old set.new (set_to to done) }
{
    if let Some(local) = to {
        write(set, local);
    }
}

/// An operand is read.
pub(crate) fn read_operand(set: &mut [u64], operand: Operand)
    ensures { WordsTell set.old set.new (got operand done) }
{
    match operand {
        Operand::Local(local) => read(set, local),
        Operand::Const(_) => {}
    }
}

/// Operands are read.
pub(crate) fn read_operands(set: &mut [u64], operands: &[Operand])
    ensures { WordsTell set.old set.new (all_got operands.now done) }
{
    let mut left = operands.len();
    while left > 0 {
        left -= 1;
        read_operand(set, operands[left]);
    }
}

/// Locals are read.
pub(crate) fn read_slots(set: &mut [u64], slots: &[u32])
    ensures { WordsTell set.old set.new (slots_got slots.now done) }
{
    let mut left = slots.len();
    while left > 0 {
        left -= 1;
        read(set, slots[left]);
    }
}

/// Control doesn't go on.
pub(crate) fn empty(set: &mut [u64])
    ensures { WordsTell set.old set.new (plain unreachable done) }
{
    for word in set.iter_mut() {
        *word = 0;
    }
}

/// What other sets have is put in, world by world.
pub(crate) fn join(set: &mut [u64], other: &[u64])
    ensures { (i : ℕ) → i < 64 → (x : ℕ) → x < length set.old → has (world i set.new) x ≡ (has (world i other.now) x || has (world i set.old) x) }
{
    let count = set.len().min(other.len());
    for local in 0..count {
        set[local] |= other[local];
    }
}

/// What a set has is put in, in all worlds.
fn join_everywhere(set: &mut [u64], other: &[bool])
    ensures { (i : ℕ) → i < 64 → (x : ℕ) → x < length set.old → has (world i set.new) x ≡ (has other.now x || has (world i set.old) x) }
{
    let count = set.len().min(other.len());
    for local in 0..count {
        if other[local] {
            set[local] = u64::MAX;
        }
    }
}

/// What is told for a label's target is put in.
pub(crate) fn join_label(set: &mut [u64], outer: &[Vec<bool>], inner: &[Vec<u64>], label: u32)
    ensures { WordsJoined outer.now inner.now (label ∷ []) set.old set.new }
{
    let label = label as usize;
    if label < inner.len() {
        join(set, &inner[inner.len() - 1 - label]);
    } else if label - inner.len() < outer.len() {
        join_everywhere(set, &outer[outer.len() - 1 - (label - inner.len())]);
    }
}

/// What is told for these labels' targets is put in.
pub(crate) fn join_labels(set: &mut [u64], outer: &[Vec<bool>], inner: &[Vec<u64>], labels: &[u32])
    ensures { WordsJoined outer.now inner.now labels.now set.old set.new }
{
    let mut left = labels.len();
    while left > 0 {
        left -= 1;
        join_label(set, outer, inner, labels[left]);
    }
}
