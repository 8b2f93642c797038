//! Classes of numeric operators, by the operands that they take and what they give (standard, section 2.4.1).

ghost use Rattle.std.specs.Prelude.{◌≡◌, [], ◌∷◌};
ghost use Rattle.wa_types.specs.Operators.{operand_types};
ghost use Rattle.wa_ops.specs.declared.class.OperatorClass.TheVariants.{Unary, Conversion, Comparison, Binary};
ghost use Rattle.wa_ops.specs.Operate.{class_of};

use wa_types::{NumOp, ValType};

/// Which of this crate's calls takes an operator (standard, section 2.4.1).
#[derive(Clone, Copy)]
pub enum OperatorClass {
    /// `unary`: counts of bits, the test for zero, and sign extensions.
    Unary,
    /// `convert`: a result of another type than the operand's.
    Conversion,
    /// `compare`: 0 or 1 of two operands.
    Comparison,
    /// `binary`: arithmetic, bits, shifts and rotations of two operands.
    Binary,
}

impl OperatorClass {
    /// The class of an operator.
    pub fn of(op: NumOp) -> OperatorClass
        ensures { result ≡ class_of op }
    {
        match op {
            NumOp::I32Eqz | NumOp::I32Clz | NumOp::I32Ctz | NumOp::I32Popcnt =>
                OperatorClass::Unary,
            NumOp::I64Eqz | NumOp::I64Clz | NumOp::I64Ctz | NumOp::I64Popcnt =>
                OperatorClass::Unary,
            NumOp::I32Extend8S
            | NumOp::I32Extend16S
            | NumOp::I64Extend8S
            | NumOp::I64Extend16S
            | NumOp::I64Extend32S => OperatorClass::Unary,
            NumOp::I32WrapI64 | NumOp::I64ExtendI32S | NumOp::I64ExtendI32U => {
                OperatorClass::Conversion
            }
            NumOp::I32Eq
            | NumOp::I32Ne
            | NumOp::I32LtS
            | NumOp::I32LtU
            | NumOp::I32GtS
            | NumOp::I32GtU
            | NumOp::I32LeS
            | NumOp::I32LeU
            | NumOp::I32GeS
            | NumOp::I32GeU => OperatorClass::Comparison,
            NumOp::I64Eq
            | NumOp::I64Ne
            | NumOp::I64LtS
            | NumOp::I64LtU
            | NumOp::I64GtS
            | NumOp::I64GtU
            | NumOp::I64LeS
            | NumOp::I64LeU
            | NumOp::I64GeS
            | NumOp::I64GeU => OperatorClass::Comparison,
            _ => OperatorClass::Binary,
        }
    }
}

/// The type that all operands of an operator have; its class says how many they are (standard, section 2.4.1).
pub fn operand_type(op: NumOp) -> ValType
    ensures unary { class_of op ≡ Unary → operand_types op ≡ result ∷ [] }
    ensures conversion { class_of op ≡ Conversion → operand_types op ≡ result ∷ [] }
    ensures comparison { class_of op ≡ Comparison → operand_types op ≡ result ∷ result ∷ [] }
    ensures binary { class_of op ≡ Binary → operand_types op ≡ result ∷ result ∷ [] }
{
    match op {
        NumOp::I64Eqz
        | NumOp::I64Eq
        | NumOp::I64Ne
        | NumOp::I64LtS
        | NumOp::I64LtU
        | NumOp::I64GtS
        | NumOp::I64GtU
        | NumOp::I64LeS
        | NumOp::I64LeU
        | NumOp::I64GeS
        | NumOp::I64GeU => ValType::I64,
        NumOp::I64Clz
        | NumOp::I64Ctz
        | NumOp::I64Popcnt
        | NumOp::I64Add
        | NumOp::I64Sub
        | NumOp::I64Mul
        | NumOp::I64DivS
        | NumOp::I64DivU
        | NumOp::I64RemS
        | NumOp::I64RemU => ValType::I64,
        NumOp::I64And
        | NumOp::I64Or
        | NumOp::I64Xor
        | NumOp::I64Shl
        | NumOp::I64ShrS
        | NumOp::I64ShrU
        | NumOp::I64Rotl
        | NumOp::I64Rotr
        | NumOp::I32WrapI64 => ValType::I64,
        NumOp::I64Extend8S | NumOp::I64Extend16S | NumOp::I64Extend32S => ValType::I64,
        _ => ValType::I32,
    }
}
