//! Numeric instructions over operands (standard, section 4.4.1).

ghost use Rattle.std.specs.Prelude.{ℕ, ◌≡◌, ◌≤◌, vec_capacity, IsOk, Option, IfOk, reverse};
ghost use Rattle.wa_types.specs.Syntax.{num};
ghost use Rattle.wa_ops.specs.declared.class.OperatorClass.TheVariants.{Unary, Conversion, Comparison, Binary};
ghost use Rattle.wa_ops.specs.Operate.{class_of};
ghost use Rattle.wa_model.specs.Store.{Store};
ghost use Rattle.interp_state.specs.Effects.{effect, Shows};

use crate::flow::Flow;
use std::alloc::AllocError;
use wa_ops::{OperatorClass, binary, compare, convert, operand_type, type_of_value, unary};
use wa_types::{NumOp, Value};

/// A numeric instruction (standard, section 4.4.1).
pub fn numeric(op: NumOp, operands: &mut Vec<Value>) -> Result<Flow, AllocError>
    ensures shows { IfOk result (λ f. (most : Option ℕ) (s : Store) → Shows (effect most (num op) s (reverse operands.old.items)) f s (reverse operands.new.items)) }
    ensures holds { vec_capacity operands.old ≤ vec_capacity operands.new }
    ensures succeeds { IsOk result }
{
    match OperatorClass::of(op) {
        OperatorClass::Unary => apply_unary(op, operands),
        OperatorClass::Conversion => apply_conversion(op, operands),
        OperatorClass::Comparison => apply_comparison(op, operands),
        OperatorClass::Binary => apply_binary(op, operands),
    }
}

fn apply_unary(op: NumOp, operands: &mut Vec<Value>) -> Result<Flow, AllocError>
    requires class { class_of op ≡ Unary }
    ensures shows { IfOk result (λ f. (most : Option ℕ) (s : Store) → Shows (effect most (num op) s (reverse operands.old.items)) f s (reverse operands.new.items)) }
    ensures holds { vec_capacity operands.old ≤ vec_capacity operands.new }
    ensures succeeds { IsOk result }
{
    let Some(a) = operands.pop() else {
        return Ok(Flow::Spent);
    };
    if type_of_value(a) != operand_type(op) {
        return Ok(Flow::Spent);
    }
    operands.push(unary(op, a))?;
    Ok(Flow::Moved { more: 0 })
}

fn apply_conversion(op: NumOp, operands: &mut Vec<Value>) -> Result<Flow, AllocError>
    requires class { class_of op ≡ Conversion }
    ensures shows { IfOk result (λ f. (most : Option ℕ) (s : Store) → Shows (effect most (num op) s (reverse operands.old.items)) f s (reverse operands.new.items)) }
    ensures holds { vec_capacity operands.old ≤ vec_capacity operands.new }
    ensures succeeds { IsOk result }
{
    let Some(a) = operands.pop() else {
        return Ok(Flow::Spent);
    };
    if type_of_value(a) != operand_type(op) {
        return Ok(Flow::Spent);
    }
    operands.push(convert(op, a))?;
    Ok(Flow::Moved { more: 0 })
}

fn apply_comparison(op: NumOp, operands: &mut Vec<Value>) -> Result<Flow, AllocError>
    requires class { class_of op ≡ Comparison }
    ensures shows { IfOk result (λ f. (most : Option ℕ) (s : Store) → Shows (effect most (num op) s (reverse operands.old.items)) f s (reverse operands.new.items)) }
    ensures holds { vec_capacity operands.old ≤ vec_capacity operands.new }
    ensures succeeds { IsOk result }
{
    let Some(b) = operands.pop() else {
        return Ok(Flow::Spent);
    };
    let Some(a) = operands.pop() else {
        return Ok(Flow::Spent);
    };
    let ty = operand_type(op);
    if type_of_value(a) != ty || type_of_value(b) != ty {
        return Ok(Flow::Spent);
    }
    operands.push(compare(op, a, b))?;
    Ok(Flow::Moved { more: 0 })
}

fn apply_binary(op: NumOp, operands: &mut Vec<Value>) -> Result<Flow, AllocError>
    requires class { class_of op ≡ Binary }
    ensures shows { IfOk result (λ f. (most : Option ℕ) (s : Store) → Shows (effect most (num op) s (reverse operands.old.items)) f s (reverse operands.new.items)) }
    ensures holds { vec_capacity operands.old ≤ vec_capacity operands.new }
    ensures succeeds { IsOk result }
{
    let Some(b) = operands.pop() else {
        return Ok(Flow::Spent);
    };
    let Some(a) = operands.pop() else {
        return Ok(Flow::Spent);
    };
    let ty = operand_type(op);
    if type_of_value(a) != ty || type_of_value(b) != ty {
        return Ok(Flow::Spent);
    }
    match binary(op, a, b) {
        Ok(v) => {
            operands.push(v)?;
            Ok(Flow::Moved { more: 0 })
        }
        Err(trap) => Ok(Flow::Trapped { more: 0, trap }),
    }
}
