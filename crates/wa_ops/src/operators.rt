//! The types of a numeric operator's operands and of its result, by its class (standard, section 3.3.1).

ghost use Rattle.std.specs.Prelude.{◌≡◌, [], ◌∷◌, length, reverse};
ghost use Rattle.wa_types.specs.Operators.{operand_types, result_type};
ghost use Rattle.wa_ops.specs.declared.class.OperatorClass.TheVariants.{Unary};
ghost use Rattle.wa_ops.specs.Operate.{class_of};
ghost use Rattle.wa_ops.specs.Types.{other_type};

use crate::class::{OperatorClass, operand_type};
use wa_types::{NumOp, ValType};

/// The types of an operator's operands, the deepest first (standard, section 3.3.1).
pub fn operands_of(op: NumOp) -> &'static [ValType]
    ensures { reverse result.now ≡ operand_types op }
{
    let ty = operand_type(op);
    match OperatorClass::of(op) {
        OperatorClass::Unary => one_of(ty),
        OperatorClass::Conversion => one_of(ty),
        OperatorClass::Comparison => two_of(ty),
        OperatorClass::Binary => two_of(ty),
    }
}

/// How many operands an operator takes (standard, section 2.4.1).
pub fn operand_count(op: NumOp) -> usize
    ensures { result ≡ length (operand_types op) }
{
    operands_of(op).len()
}

fn one_of(ty: ValType) -> &'static [ValType]
    ensures { reverse result.now ≡ ty ∷ [] }
{
    match ty {
        ValType::I32 => &[ValType::I32],
        ValType::I64 => &[ValType::I64],
    }
}

fn two_of(ty: ValType) -> &'static [ValType]
    ensures { reverse result.now ≡ ty ∷ ty ∷ [] }
{
    match ty {
        ValType::I32 => &[ValType::I32, ValType::I32],
        ValType::I64 => &[ValType::I64, ValType::I64],
    }
}

/// The type of an operator's result (standard, section 3.3.1).
pub fn result_of(op: NumOp) -> ValType
    ensures { result ≡ result_type op }
{
    let ty = operand_type(op);
    match OperatorClass::of(op) {
        OperatorClass::Unary => unary_result(op, ty),
        OperatorClass::Conversion => other_than(ty),
        OperatorClass::Comparison => ValType::I32,
        OperatorClass::Binary => ty,
    }
}

// The type of the result of a count of bits, of the test for zero, or of a sign extension.
fn unary_result(op: NumOp, ty: ValType) -> ValType
    requires class { class_of op ≡ Unary }
    requires operand { operand_types op ≡ ty ∷ [] }
    ensures { result ≡ result_type op }
{
    match op {
        NumOp::I64Eqz => ValType::I32,
        _ => ty,
    }
}

// The other integer type.
fn other_than(ty: ValType) -> ValType
    ensures { result ≡ other_type ty }
{
    match ty {
        ValType::I32 => ValType::I64,
        ValType::I64 => ValType::I32,
    }
}
