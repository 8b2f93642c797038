//! Constants and parametric instructions: `const`, `drop` and `select` (standard, sections 4.4.1.1 and 4.4.2).

ghost use Rattle.std.specs.Prelude.{ℕ, ◌≡◌, ◌≤◌, List, Option, IfOk, IsOk, OnErr, reverse, vec_capacity, vec_len};
ghost use Rattle.wa_types.specs.Syntax.{nop, drop as drop_operand, select, const};
ghost use Rattle.wa_model.specs.Store.{Store};
ghost use Rattle.interp_state.specs.Effects.{effect, Shows};

use crate::flow::Flow;
use std::alloc::AllocError;
use wa_types::Value;

/// `const` (standard, section 4.4.1.1).
pub fn constant(operands: &mut Vec<Value>, value: Value) -> Result<Flow, AllocError>
    ensures shows { IfOk result (λ f. (most : Option ℕ) (s : Store) → Shows (effect most (const value) s (reverse operands.old.items)) f s (reverse operands.new.items)) }
    ensures holds { vec_capacity operands.old ≤ vec_capacity operands.new }
    ensures lacks { OnErr result (vec_capacity operands.old ≤ vec_len operands.old) }
{
    operands.push(value)?;
    Ok(Flow::Moved { more: 0 })
}

/// `drop` (standard, section 4.4.2.1).
pub fn drop_top(operands: &mut Vec<Value>) -> Flow
    ensures shows { (most : Option ℕ) (s : Store) → Shows (effect most drop_operand s (reverse operands.old.items)) result s (reverse operands.new.items) }
    ensures holds { vec_capacity operands.old ≤ vec_capacity operands.new }
{
    match operands.pop() {
        Some(_) => Flow::Moved { more: 0 },
        None => Flow::Spent,
    }
}

/// `select` (standard, section 4.4.2.2).
pub fn choose(operands: &mut Vec<Value>) -> Result<Flow, AllocError>
    ensures shows { IfOk result (λ f. (most : Option ℕ) (s : Store) → Shows (effect most select s (reverse operands.old.items)) f s (reverse operands.new.items)) }
    ensures holds { vec_capacity operands.old ≤ vec_capacity operands.new }
    ensures succeeds { IsOk result }
{
    let Some(Value::I32(test)) = operands.pop() else {
        return Ok(Flow::Spent);
    };
    let Some(upper) = operands.pop() else {
        return Ok(Flow::Spent);
    };
    let Some(lower) = operands.pop() else {
        return Ok(Flow::Spent);
    };
    if test == 0 {
        operands.push(upper)?;
        return Ok(Flow::Moved { more: 0 });
    }
    operands.push(lower)?;
    Ok(Flow::Moved { more: 0 })
}
