//! Copies and fills of the memory (standard, version 2.0, section 4.4.7). Past 1 they cost their length.

ghost use Rattle.std.specs.Prelude.{◌≡◌, ◌≤◌, vec_capacity, ℕ, Option, MatchOption, reverse, take};
ghost use Rattle.wa_model.specs.Store.{extra_cost};
ghost use Rattle.wa_types.specs.Syntax.{memory_copy, memory_fill};
ghost use Rattle.interp_state.specs.Effects.{effect, topped, LacksThree, ShowsPaid, Unmoved};
ghost use Rattle.interp_state.specs.View.{store_of};

use crate::flow::Flow;
use crate::store::Store;
use wa_types::{Trap, Value};

// The operands of a copy or a fill: its length, the source or the value, and the target.
#[derive(Clone, Copy)]
struct Words {
    len: u32,
    middle: u32,
    at: u32,
}

/// `memory.copy`: where both ranges lie inside the memory, and its length can be paid of what is `left`.
pub fn memory_copy(store: &mut Store, operands: &mut Vec<Value>, left: u64) -> Flow
    ensures shows { (most : Option ℕ) → ShowsPaid (effect most memory_copy (store_of store.old) (reverse operands.old.items))
        (extra_cost memory_copy (take 3 (reverse operands.old.items))) left result (store_of store.new) (reverse operands.new.items) }
    ensures kept { Unmoved result → store_of store.new ≡ store_of store.old }
    ensures max { store.new.memory.max ≡ store.old.memory.max }
    ensures holds { vec_capacity operands.old ≤ vec_capacity operands.new }
{
    let Some(words) = pop_words(operands) else {
        return Flow::Spent;
    };
    let (from, to, len) = (
        u64::from(words.middle),
        u64::from(words.at),
        u64::from(words.len),
    );
    let end = store.memory.bytes().len() as u64;
    if end < from + len {
        return Flow::Trapped {
            more: 0,
            trap: Trap::OutOfBounds,
        };
    }
    if end < to + len {
        return Flow::Trapped {
            more: 0,
            trap: Trap::OutOfBounds,
        };
    }
    if left <= len {
        return Flow::Spent;
    }
    if store.memory.copy(to, from, len) {
        return Flow::Moved { more: len };
    }
    Flow::Trapped {
        more: 0,
        trap: Trap::OutOfBounds,
    }
}

/// `memory.fill`: where its range lies inside the memory, and its length can be paid of what is `left`.
pub fn memory_fill(store: &mut Store, operands: &mut Vec<Value>, left: u64) -> Flow
    ensures shows { (most : Option ℕ) → ShowsPaid (effect most memory_fill (store_of store.old) (reverse operands.old.items))
        (extra_cost memory_fill (take 3 (reverse operands.old.items))) left result (store_of store.new) (reverse operands.new.items) }
    ensures kept { Unmoved result → store_of store.new ≡ store_of store.old }
    ensures max { store.new.memory.max ≡ store.old.memory.max }
    ensures holds { vec_capacity operands.old ≤ vec_capacity operands.new }
{
    let Some(words) = pop_words(operands) else {
        return Flow::Spent;
    };
    let (to, count) = (u64::from(words.at), u64::from(words.len));
    let end = store.memory.bytes().len() as u64;
    if end < to + count {
        return Flow::Trapped {
            more: 0,
            trap: Trap::OutOfBounds,
        };
    }
    if left <= count {
        return Flow::Spent;
    }
    if store.memory.fill(to, (words.middle % 256) as u8, count) {
        return Flow::Moved { more: count };
    }
    Flow::Trapped {
        more: 0,
        trap: Trap::OutOfBounds,
    }
}

// Takes the three topmost operands off, where they are i32.
fn pop_words(operands: &mut Vec<Value>) -> Option<Words>
    ensures words { MatchOption result (LacksThree (reverse operands.old.items))
        (λ w. reverse operands.old.items ≡ topped w.len w.middle w.at (reverse operands.new.items)) }
    ensures holds { vec_capacity operands.old ≤ vec_capacity operands.new }
{
    let Some(Value::I32(len)) = operands.pop() else {
        return None;
    };
    let Some(Value::I32(middle)) = operands.pop() else {
        return None;
    };
    let Some(Value::I32(at)) = operands.pop() else {
        return None;
    };
    Some(Words { len, middle, at })
}
