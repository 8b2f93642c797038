//! Memory instructions, and accesses of globals (standard, sections 4.4.4, 4.4.3.4 and 4.4.3.5).

ghost use Rattle.std.specs.Prelude.{◌≡◌, ◌<◌, ◌≤◌, vec_capacity, vec_len, IsOk, OnErr, ◌^◌, ◌⊎◌, ℕ, List, Option, IfOk, reverse};
ghost use Rattle.wa_types.specs.Syntax.{load, store as store_instr, memory_size, memory_grow, global_get, global_set};
ghost use Rattle.interp_state.specs.Effects.{effect, Shows, Unmoved};
ghost use Rattle.interp_state.specs.View.{store_of};

use crate::flow::Flow;
use crate::store::Store;
use crate::values::{set_at, value_at};
use std::alloc::AllocError;
use wa_ops::{load_access, load_value, store_access};
use wa_types::{Trap, ValType, Value};

/// A load (standard, section 4.4.4.1).
pub fn load_at(
    store: &Store,
    operands: &mut Vec<Value>,
    op: u8,
    offset: u32,
) -> Result<Flow, AllocError>
    ensures shows { IfOk result (λ f. (most : Option ℕ) (align : ℕ) → Shows (effect most (load op align offset) (store_of store.now) (reverse operands.old.items)) f (store_of store.now)
        (reverse operands.new.items)) }
    ensures holds { vec_capacity operands.old ≤ vec_capacity operands.new }
    ensures succeeds { IsOk result }
{
    let Some(Value::I32(addr)) = operands.pop() else {
        return Ok(Flow::Spent);
    };
    let Some(access) = load_access(op) else {
        return Ok(Flow::Spent);
    };
    let width = width_of(access.natural);
    match store
        .memory
        .load(u64::from(addr) + u64::from(offset), width)
    {
        Some(number) => {
            operands.push(load_value(access.ty, width, access.signed, number))?;
            Ok(Flow::Moved { more: 0 })
        }
        None => Ok(Flow::Trapped {
            more: 0,
            trap: Trap::OutOfBounds,
        }),
    }
}

/// A store (standard, section 4.4.4.2).
pub fn store_at(store: &mut Store, operands: &mut Vec<Value>, op: u8, offset: u32) -> Flow
    ensures shows { (most : Option ℕ) (align : ℕ) → Shows (effect most (store_instr op align offset) (store_of store.old) (reverse operands.old.items)) result (store_of store.new)
        (reverse operands.new.items) }
    ensures kept { Unmoved result → store_of store.new ≡ store_of store.old }
    ensures max { store.new.memory.max ≡ store.old.memory.max }
    ensures holds { vec_capacity operands.old ≤ vec_capacity operands.new }
{
    let Some(v) = operands.pop() else {
        return Flow::Spent;
    };
    let Some(Value::I32(addr)) = operands.pop() else {
        return Flow::Spent;
    };
    let Some(access) = store_access(op) else {
        return Flow::Spent;
    };
    let number = match (access.ty, v) {
        (ValType::I32, Value::I32(n)) => u64::from(n),
        (ValType::I64, Value::I64(n)) => n,
        _ => return Flow::Spent,
    };
    let at = u64::from(addr) + u64::from(offset);
    if store.memory.store(at, width_of(access.natural), number) {
        return Flow::Moved { more: 0 };
    }
    Flow::Trapped {
        more: 0,
        trap: Trap::OutOfBounds,
    }
}

/// The number of bytes of an access with this exponent of 2.
fn width_of(natural: u32) -> u32
    requires { natural < 4 }
    ensures width { result ≡ 2 ^ natural }
    ensures known { (result ≡ 1) ⊎ (result ≡ 2) ⊎ (result ≡ 4) ⊎ (result ≡ 8) }
{
    match natural {
        0 => 1,
        1 => 2,
        2 => 4,
        _ => 8,
    }
}

/// `memory.size` (standard, section 4.4.4.3).
pub fn memory_size(store: &Store, operands: &mut Vec<Value>) -> Result<Flow, AllocError>
    ensures shows { IfOk result (λ f. (most : Option ℕ) → Shows (effect most memory_size (store_of store.now) (reverse operands.old.items)) f (store_of store.now) (reverse operands.new.items)) }
    ensures holds { vec_capacity operands.old ≤ vec_capacity operands.new }
    ensures lacks { OnErr result (vec_capacity operands.old ≤ vec_len operands.old) }
{
    operands.push(Value::I32(store.memory.size()))?;
    Ok(Flow::Moved { more: 0 })
}

/// `memory.grow` (standard, section 4.4.4.4): the old number of pages, or -1.
pub fn memory_grow(store: &mut Store, operands: &mut Vec<Value>) -> Result<Flow, AllocError>
    ensures shows { IfOk result (λ f. Shows (effect store.old.memory.max memory_grow (store_of store.old) (reverse operands.old.items)) f (store_of store.new) (reverse operands.new.items)) }
    ensures kept { IfOk result (λ f. Unmoved f → store_of store.new ≡ store_of store.old) }
    ensures max { store.new.memory.max ≡ store.old.memory.max }
    ensures holds { vec_capacity operands.old ≤ vec_capacity operands.new }
    ensures unchanged { OnErr result (store_of store.new ≡ store_of store.old) }
{
    let Some(Value::I32(by)) = operands.pop() else {
        return Ok(Flow::Spent);
    };
    let before = store.memory.grow(by)?.unwrap_or(u32::MAX);
    operands.push(Value::I32(before))?;
    Ok(Flow::Moved { more: 0 })
}

/// `global.get` (standard, section 4.4.3.4).
pub fn get_global(store: &Store, operands: &mut Vec<Value>, x: u32) -> Result<Flow, AllocError>
    ensures shows { IfOk result (λ f. (most : Option ℕ) → Shows (effect most (global_get x) (store_of store.now) (reverse operands.old.items)) f (store_of store.now) (reverse operands.new.items)) }
    ensures holds { vec_capacity operands.old ≤ vec_capacity operands.new }
    ensures lacks { OnErr result (vec_capacity operands.old ≤ vec_len operands.old) }
{
    operands.push(value_at(&store.globals, x))?;
    Ok(Flow::Moved { more: 0 })
}

/// `global.set` (standard, section 4.4.3.5).
pub fn set_global(store: &mut Store, operands: &mut Vec<Value>, x: u32) -> Flow
    ensures shows { (most : Option ℕ) → Shows (effect most (global_set x) (store_of store.old) (reverse operands.old.items)) result (store_of store.new) (reverse operands.new.items) }
    ensures kept { Unmoved result → store_of store.new ≡ store_of store.old }
    ensures max { store.new.memory.max ≡ store.old.memory.max }
    ensures holds { vec_capacity operands.old ≤ vec_capacity operands.new }
{
    let Some(v) = operands.pop() else {
        return Flow::Spent;
    };
    set_at(&mut store.globals, x, v);
    Flow::Moved { more: 0 }
}
