//! Integer operators at 64 bits (standard, section 4.3.2).

ghost use Rattle.std.specs.Prelude.{◌≡◌, [], ◌∷◌, Some, Ok};
ghost use Rattle.wa_types.specs.declared.values.ValType.TheVariants.{I64};
ghost use Rattle.wa_types.specs.Operators.{operand_types};
ghost use Rattle.wa_ops.specs.declared.class.OperatorClass.TheVariants.{Comparison, Binary};
ghost use Rattle.wa_ops.specs.Integers.{idiv_s, irem_s, ishr_s, irotl, irotr, of_bool};
ghost use Rattle.wa_ops.specs.Operate.{applied, meaning_of, class_of};

use wa_types::{NumOp, Trap};

/// Whether a comparison of two i64 holds (standard, section 4.3.2).
pub(crate) fn compare(op: NumOp, i: u64, j: u64) -> bool
    requires class { class_of op ≡ Comparison }
    requires types { operand_types op ≡ I64 ∷ I64 ∷ [] }
    ensures { applied (meaning_of op) (j ∷ i ∷ []) ≡ Some (Ok (of_bool result)) }
{
    match op {
        NumOp::I64Eq => i == j,
        NumOp::I64Ne => i != j,
        NumOp::I64LtS => i.cast_signed() < j.cast_signed(),
        NumOp::I64LtU => i < j,
        NumOp::I64GtS => i.cast_signed() > j.cast_signed(),
        NumOp::I64GtU => i > j,
        NumOp::I64LeS => i.cast_signed() <= j.cast_signed(),
        NumOp::I64LeU => i <= j,
        NumOp::I64GeS => i.cast_signed() >= j.cast_signed(),
        NumOp::I64GeU => i >= j,
        _ => unreachable!(),
    }
}

/// What an operator makes of two i64 (standard, section 4.3.2).
pub(crate) fn binary(op: NumOp, i: u64, j: u64) -> Result<u64, Trap>
    requires class { class_of op ≡ Binary }
    requires types { operand_types op ≡ I64 ∷ I64 ∷ [] }
    ensures { applied (meaning_of op) (j ∷ i ∷ []) ≡ Some result }
{
    match op {
        NumOp::I64Add => Ok(i.wrapping_add(j)),
        NumOp::I64Sub => Ok(i.wrapping_sub(j)),
        NumOp::I64Mul => Ok(i.wrapping_mul(j)),
        NumOp::I64DivS => div_s(i, j),
        NumOp::I64DivU => i.checked_div(j).ok_or(Trap::DivideByZero),
        NumOp::I64RemS => rem_s(i, j),
        NumOp::I64RemU => i.checked_rem(j).ok_or(Trap::DivideByZero),
        NumOp::I64And => Ok(i & j),
        NumOp::I64Or => Ok(i | j),
        NumOp::I64Xor => Ok(i ^ j),
        NumOp::I64Shl => Ok(i << (j % 64)),
        NumOp::I64ShrS => Ok(shr_s(i, j)),
        NumOp::I64ShrU => Ok(i >> (j % 64)),
        NumOp::I64Rotl => Ok(rotl(i, j)),
        NumOp::I64Rotr => Ok(rotr(i, j)),
        _ => unreachable!(),
    }
}

/// The quotient of the signed readings, rounded towards zero.
fn div_s(i: u64, j: u64) -> Result<u64, Trap>
    ensures { result ≡ idiv_s 64 i j }
{
    if j == 0 {
        return Err(Trap::DivideByZero);
    }
    match i.cast_signed().checked_div(j.cast_signed()) {
        Some(quotient) => Ok(quotient.cast_unsigned()),
        None => Err(Trap::IntegerOverflow),
    }
}

/// The remainder of the signed readings, with the sign of the first.
fn rem_s(i: u64, j: u64) -> Result<u64, Trap>
    ensures { result ≡ irem_s 64 i j }
{
    if j == 0 {
        return Err(Trap::DivideByZero);
    }
    let remainder = i.cast_signed().wrapping_rem(j.cast_signed());
    Ok(remainder.cast_unsigned())
}

/// A shift to the right that copies the highest bit.
fn shr_s(i: u64, j: u64) -> u64
    ensures { result ≡ ishr_s 64 i j }
{
    i.cast_signed()
        .wrapping_shr((j % 64) as u32)
        .cast_unsigned()
}

/// A rotation to the left.
fn rotl(i: u64, j: u64) -> u64
    ensures { result ≡ irotl 64 i j }
{
    i.rotate_left((j % 64) as u32)
}

/// A rotation to the right.
fn rotr(i: u64, j: u64) -> u64
    ensures { result ≡ irotr 64 i j }
{
    i.rotate_right((j % 64) as u32)
}
