//! The operators on integers, each opcode at 32 or 64 bits, and the tables of what instructions take and give.
//!
//! `OperatorClass::of` says which call takes an operator (standard, section 4.3): `unary`, `convert`, `compare` or `binary`.
//! Operands stand in the order in which they were pushed. The one law: each call answers what `operate` of `specs/Operate.antt` says
//! of the same operands, topmost first: a value of the operator's result type, or for `binary` a trap. What the operators mean
//! stands once for both widths in `specs/Integers.antt`. `load_value` is the same for what a load reads.
//!
//! Validation and the interpreter read one table: an operator's operands and result, and a row for each load and store.
//!
//! No call takes memory, and none touches an operand stack: that is `interp_state`.
//!
//! - `class`, `operators`: an operator's class, and the types of its operands and result.
//! - `types`, `access`: equal types and the type of a value; loads and stores by opcode.
//! - `narrow`, `wide`: the operators at 32 and at 64 bits; `loads`: the value that a load makes of bytes.
#![tactic(auto)]

mod access;
mod class;
mod loads;
mod narrow;
mod operators;
mod types;
mod wide;

ghost use Rattle.std.specs.Prelude.{◌≡◌, [], ◌∷◌, Some, Ok};
ghost use Rattle.wa_types.specs.Operators.{operand_types};
ghost use Rattle.wa_types.specs.Typing.{type_of};
ghost use Rattle.wa_ops.specs.declared.class.OperatorClass.TheVariants.{Unary, Conversion, Comparison, Binary};
ghost use Rattle.wa_ops.specs.Operate.{operate, class_of};

pub use access::{Access, load_access, store_access};
pub use class::{OperatorClass, operand_type};
pub use loads::load_value;
pub use operators::{operand_count, operands_of, result_of};
pub use types::{same_types, type_of_value};
use wa_types::{NumOp, Trap, Value};

/// The value of an operator with one operand: the counts of bits, the test for zero and the sign extensions (standard, section
/// 4.3.2). `clz` and `ctz` of 0 are the width; an extension takes the low 8, 16 or 32 bits as a signed number.
pub fn unary(op: NumOp, a: Value) -> Value
    requires class { class_of op ≡ Unary }
    requires types { operand_types op ≡ type_of a ∷ [] }
    ensures { operate op (a ∷ []) ≡ Some (Ok result) }
{
    match (op, a) {
        (NumOp::I32Eqz, Value::I32(i)) => Value::I32(u32::from(i == 0)),
        (NumOp::I32Clz, Value::I32(i)) => Value::I32(i.leading_zeros()),
        (NumOp::I32Ctz, Value::I32(i)) => Value::I32(i.trailing_zeros()),
        (NumOp::I32Popcnt, Value::I32(i)) => Value::I32(i.count_ones()),
        (NumOp::I64Eqz, Value::I64(i)) => Value::I32(u32::from(i == 0)),
        (NumOp::I64Clz, Value::I64(i)) => Value::I64(u64::from(i.leading_zeros())),
        (NumOp::I64Ctz, Value::I64(i)) => Value::I64(u64::from(i.trailing_zeros())),
        (NumOp::I64Popcnt, Value::I64(i)) => Value::I64(u64::from(i.count_ones())),
        (NumOp::I32Extend8S, Value::I32(i)) => {
            Value::I32(i32::from(((i % (1 << 8)) as u8).cast_signed()).cast_unsigned())
        }
        (NumOp::I32Extend16S, Value::I32(i)) => {
            Value::I32(i32::from(((i % (1 << 16)) as u16).cast_signed()).cast_unsigned())
        }
        (NumOp::I64Extend8S, Value::I64(i)) => {
            Value::I64(i64::from(((i % (1 << 8)) as u8).cast_signed()).cast_unsigned())
        }
        (NumOp::I64Extend16S, Value::I64(i)) => {
            Value::I64(i64::from(((i % (1 << 16)) as u16).cast_signed()).cast_unsigned())
        }
        (NumOp::I64Extend32S, Value::I64(i)) => {
            Value::I64(i64::from(((i % (1 << 32)) as u32).cast_signed()).cast_unsigned())
        }
        _ => unreachable!(),
    }
}

/// The value of a conversion between the two integer types (standard, section 4.3.4).
pub fn convert(op: NumOp, a: Value) -> Value
    requires class { class_of op ≡ Conversion }
    requires types { operand_types op ≡ type_of a ∷ [] }
    ensures { operate op (a ∷ []) ≡ Some (Ok result) }
{
    match (op, a) {
        (NumOp::I32WrapI64, Value::I64(i)) => Value::I32((i % (1 << 32)) as u32),
        (NumOp::I64ExtendI32S, Value::I32(i)) => {
            Value::I64(i64::from(i.cast_signed()).cast_unsigned())
        }
        (NumOp::I64ExtendI32U, Value::I32(i)) => Value::I64(u64::from(i)),
        _ => unreachable!(),
    }
}

/// The i32 1 where a comparison of `a` with `b` holds, else 0 (standard, section 4.3.2).
pub fn compare(op: NumOp, a: Value, b: Value) -> Value
    requires class { class_of op ≡ Comparison }
    requires types { operand_types op ≡ type_of b ∷ type_of a ∷ [] }
    ensures { operate op (b ∷ a ∷ []) ≡ Some (Ok result) }
{
    match (a, b) {
        (Value::I32(i), Value::I32(j)) => Value::I32(u32::from(narrow::compare(op, i, j))),
        (Value::I64(i), Value::I64(j)) => Value::I32(u32::from(wide::compare(op, i, j))),
        _ => unreachable!(),
    }
}

/// What an operator makes of two operands of its result's type (standard, section 4.3.2): DivideByZero exactly
/// for a division or remainder by 0, IntegerOverflow exactly for the signed division of the least number by -1.
pub fn binary(op: NumOp, a: Value, b: Value) -> Result<Value, Trap>
    requires class { class_of op ≡ Binary }
    requires types { operand_types op ≡ type_of b ∷ type_of a ∷ [] }
    ensures { operate op (b ∷ a ∷ []) ≡ Some result }
{
    match (a, b) {
        (Value::I32(i), Value::I32(j)) => Ok(Value::I32(narrow::binary(op, i, j)?)),
        (Value::I64(i), Value::I64(j)) => Ok(Value::I64(wide::binary(op, i, j)?)),
        _ => unreachable!(),
    }
}
