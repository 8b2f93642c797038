//! Single instructions of flat and guarded code, put behind others.

ghost use Rattle.std.specs.Prelude.{◌≡◌, ◌+◌, ◌&&◌, suc, true, nat_eq, OnOk};
ghost use Rattle.wa_types.specs.declared.values.Value.TheVariants as V;
ghost use Rattle.wa_types.specs.Syntax.{const, num, global_get, basic, local_get, local_set, br_if, a_block, a_loop, done, plain, nest, branch};
ghost use Rattle.wa_types.specs.View.{code, in_front};
ghost use Rattle.run_theory.specs.Flat.{followed_by, got, all_got, set_to, slots_got};
ghost use Rattle.wa_types.specs.Leaves.{is_leaf};
ghost use Rattle.guard_form.specs.Guarded.{index_noted};
ghost use Rattle.flow_rewrite.specs.Putting.{Puts};

use std::alloc::{AllocError, Global};
use wa_model::Operand;
use wa_types::{Instr, NumOp, ValType, Value, copy_leaf};

/// Puts what gets an operand.
pub fn put_operand(out: &mut Vec<Instr>, operand: Operand) -> Result<(), AllocError>
    ensures { OnOk result (Puts out.old.items out.new.items (got operand)) }
{
    match operand {
        Operand::Local(x) => out.push(Instr::LocalGet(x))?,
        Operand::Const(value) => out.push(Instr::Const(value))?,
    }
    Ok(())
}

/// Puts what gets each operand in order.
pub fn put_operands(out: &mut Vec<Instr>, operands: &[Operand]) -> Result<(), AllocError>
    ensures { OnOk result (Puts out.old.items out.new.items (all_got operands.now)) }
{
    for operand in operands {
        put_operand(out, *operand)?;
    }
    Ok(())
}

/// Puts what gets each of these locals in order.
pub fn put_slots(out: &mut Vec<Instr>, slots: &[u32]) -> Result<(), AllocError>
    ensures { OnOk result (Puts out.old.items out.new.items (slots_got slots.now)) }
{
    for slot in slots {
        out.push(Instr::LocalGet(*slot))?;
    }
    Ok(())
}

/// Puts what sets the local that is told.
pub fn put_to(out: &mut Vec<Instr>, to: Option<u32>) -> Result<(), AllocError>
    ensures { OnOk result (Puts out.old.items out.new.items (set_to to)) }
{
    if let Some(x) = to {
        out.push(Instr::LocalSet(x))?;
    }
    Ok(())
}

/// Puts an instruction that holds no other.
pub fn put_copy(alloc: Global, out: &mut Vec<Instr>, op: &Instr) -> Result<(), AllocError>
    requires { is_leaf op.now ≡ true }
    ensures { OnOk result (Puts out.old.items out.new.items (followed_by (in_front op.now done))) }
{
    let copy = copy_leaf(alloc, op)?;
    out.push(copy)?;
    Ok(())
}

/// Puts a block.
#[inline(never)]
pub(crate) fn put_block(
    out: &mut Vec<Instr>,
    ty: Option<ValType>,
    body: Vec<Instr>,
) -> Result<(), AllocError>
    ensures { OnOk result (Puts out.old.items out.new.items (nest a_block ty (code body.items))) }
{
    out.push(Instr::Block { result: ty, body })?;
    Ok(())
}

/// Puts a loop.
#[inline(never)]
pub(crate) fn put_loop(
    out: &mut Vec<Instr>,
    ty: Option<ValType>,
    body: Vec<Instr>,
) -> Result<(), AllocError>
    ensures { OnOk result (Puts out.old.items out.new.items (nest a_loop ty (code body.items))) }
{
    out.push(Instr::Loop { result: ty, body })?;
    Ok(())
}

/// Puts an `if`.
#[inline(never)]
pub(crate) fn put_if(
    out: &mut Vec<Instr>,
    ty: Option<ValType>,
    then_arm: Vec<Instr>,
    else_arm: Vec<Instr>,
) -> Result<(), AllocError>
    ensures { OnOk result (Puts out.old.items out.new.items (branch ty (code then_arm.items) (code else_arm.items))) }
{
    out.push(Instr::If {
        result: ty,
        then_arm,
        else_arm,
    })?;
    Ok(())
}

/// Puts a test of the state's global, and what stands in both cases.
pub fn put_test(
    out: &mut Vec<Instr>,
    state: u32,
    ty: Option<ValType>,
    then_arm: Vec<Instr>,
    else_arm: Vec<Instr>,
) -> Result<(), AllocError>
    ensures { OnOk result (Puts out.old.items out.new.items (λ c. plain (basic (global_get state)) (branch ty (code then_arm.items) (code else_arm.items) c))) }
{
    out.push(Instr::GlobalGet(state))?;
    out.push(Instr::If {
        result: ty,
        then_arm,
        else_arm,
    })?;
    Ok(())
}

/// Puts the call index against a number.
pub fn put_index(out: &mut Vec<Instr>, index: u32, number: u32, op: NumOp) -> Result<(), AllocError>
    ensures { OnOk result (Puts out.old.items out.new.items (λ c. plain (local_get index) (plain (basic (const (V.I32 number))) (plain (basic (num op)) c)))) }
{
    out.push(Instr::LocalGet(index))?;
    out.push(Instr::Const(Value::I32(number)))?;
    out.push(Instr::Num(op))?;
    Ok(())
}

/// Puts what leaves by the label where the state isn't 0.
fn put_leave(out: &mut Vec<Instr>, state: u32, label: u32) -> Result<(), AllocError>
    ensures { OnOk result (Puts out.old.items out.new.items (λ c. plain (basic (global_get state)) (plain (br_if label) c))) }
{
    out.push(Instr::GlobalGet(state))?;
    out.push(Instr::BrIf(label))?;
    Ok(())
}

/// Whether a call of this number isn't noted: the first one, where it may go so.
fn goes_unnoted(first_unnoted: bool, number: u32) -> bool
    ensures { result ≡ (first_unnoted && nat_eq number 0) }
{
    first_unnoted && number == 0
}

/// Puts what notes the index behind a call, but for call 0 where that may go unnoted, and leaves by the label where the state isn't 0.
pub fn put_noted(
    out: &mut Vec<Instr>,
    first_unnoted: bool,
    state: u32,
    index: u32,
    number: u32,
    label: u32,
) -> Result<(), AllocError>
    ensures { OnOk result (Puts out.old.items out.new.items (λ c. index_noted first_unnoted index number (plain (basic (global_get state)) (plain (br_if label) c)))) }
{
    if goes_unnoted(first_unnoted, number) {
        put_leave(out, state, label)?;
        return Ok(());
    }
    out.push(Instr::Const(Value::I32(number)))?;
    out.push(Instr::LocalSet(index))?;
    put_leave(out, state, label)?;
    Ok(())
}
