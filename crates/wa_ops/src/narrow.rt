//! Integer operators at 32 bits (standard, section 4.3.2).

ghost use Rattle.std.specs.Prelude.{◌≡◌, [], ◌∷◌, Some, Ok};
ghost use Rattle.wa_types.specs.declared.values.ValType.TheVariants.{I32};
ghost use Rattle.wa_types.specs.Operators.{operand_types};
ghost use Rattle.wa_ops.specs.declared.class.OperatorClass.TheVariants.{Comparison, Binary};
ghost use Rattle.wa_ops.specs.Integers.{idiv_s, irem_s, ishr_s, irotl, irotr, of_bool};
ghost use Rattle.wa_ops.specs.Operate.{applied, meaning_of, class_of};

use wa_types::{NumOp, Trap};

/// Whether a comparison of two i32 holds (standard, section 4.3.2).
pub(crate) fn compare(op: NumOp, i: u32, j: u32) -> bool
    requires class { class_of op ≡ Comparison }
    requires types { operand_types op ≡ I32 ∷ I32 ∷ [] }
    ensures { applied (meaning_of op) (j ∷ i ∷ []) ≡ Some (Ok (of_bool result)) }
{
    match op {
        NumOp::I32Eq => i == j,
        NumOp::I32Ne => i != j,
        NumOp::I32LtS => i.cast_signed() < j.cast_signed(),
        NumOp::I32LtU => i < j,
        NumOp::I32GtS => i.cast_signed() > j.cast_signed(),
        NumOp::I32GtU => i > j,
        NumOp::I32LeS => i.cast_signed() <= j.cast_signed(),
        NumOp::I32LeU => i <= j,
        NumOp::I32GeS => i.cast_signed() >= j.cast_signed(),
        NumOp::I32GeU => i >= j,
        _ => unreachable!(),
    }
}

/// What an operator makes of two i32 (standard, section 4.3.2).
pub(crate) fn binary(op: NumOp, i: u32, j: u32) -> Result<u32, Trap>
    requires class { class_of op ≡ Binary }
    requires types { operand_types op ≡ I32 ∷ I32 ∷ [] }
    ensures { applied (meaning_of op) (j ∷ i ∷ []) ≡ Some result }
{
    match op {
        NumOp::I32Add => Ok(i.wrapping_add(j)),
        NumOp::I32Sub => Ok(i.wrapping_sub(j)),
        NumOp::I32Mul => Ok(i.wrapping_mul(j)),
        NumOp::I32DivS => div_s(i, j),
        NumOp::I32DivU => i.checked_div(j).ok_or(Trap::DivideByZero),
        NumOp::I32RemS => rem_s(i, j),
        NumOp::I32RemU => i.checked_rem(j).ok_or(Trap::DivideByZero),
        NumOp::I32And => Ok(i & j),
        NumOp::I32Or => Ok(i | j),
        NumOp::I32Xor => Ok(i ^ j),
        NumOp::I32Shl => Ok(i << (j % 32)),
        NumOp::I32ShrS => Ok(shr_s(i, j)),
        NumOp::I32ShrU => Ok(i >> (j % 32)),
        NumOp::I32Rotl => Ok(rotl(i, j)),
        NumOp::I32Rotr => Ok(rotr(i, j)),
        _ => unreachable!(),
    }
}

/// The quotient of the signed readings, rounded towards zero.
fn div_s(i: u32, j: u32) -> Result<u32, Trap>
    ensures { result ≡ idiv_s 32 i j }
{
    if j == 0 {
        return Err(Trap::DivideByZero);
    }
    match i.cast_signed().checked_div(j.cast_signed()) {
        Some(quotient) => Ok(quotient.cast_unsigned()),
        None => Err(Trap::IntegerOverflow),
    }
}

/// The remainder of the signed readings, with the sign of the first.
fn rem_s(i: u32, j: u32) -> Result<u32, Trap>
    ensures { result ≡ irem_s 32 i j }
{
    if j == 0 {
        return Err(Trap::DivideByZero);
    }
    let remainder = i.cast_signed().wrapping_rem(j.cast_signed());
    Ok(remainder.cast_unsigned())
}

/// A shift to the right that copies the highest bit.
fn shr_s(i: u32, j: u32) -> u32
    ensures { result ≡ ishr_s 32 i j }
{
    i.cast_signed().wrapping_shr(j).cast_unsigned()
}

/// A rotation to the left.
fn rotl(i: u32, j: u32) -> u32
    ensures { result ≡ irotl 32 i j }
{
    i.rotate_left(j)
}

/// A rotation to the right.
fn rotr(i: u32, j: u32) -> u32
    ensures { result ≡ irotr 32 i j }
{
    i.rotate_right(j)
}
