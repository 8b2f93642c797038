//! Blocks, loops and ifs in flat form: entered, left, and put with the moves of their results.

ghost use Rattle.std.specs.Prelude.{◌≡◌, ◌≤◌, ◌++◌, ◌∷◌, [], drop, false, length, reverse, take, IfOk, OnOk};
ghost use Rattle.wa_types.specs.Syntax.{done};
ghost use Rattle.wa_types.specs.View.{in_front};
ghost use Rattle.wa_types.specs.Leaves.{is_leaf};
ghost use Rattle.wa_model.specs.declared.flat.Operand.TheVariants.{Local};
ghost use Rattle.wa_model.specs.declared.flat.Stmt.TheVariants.{If};
ghost use Rattle.wasm_validate.specs.Walk.{left_at, Inside, TypedAt};
ghost use Rattle.flatten.specs.Emitting.{result_at, ArrivesAt, Closed, PutBlock, PutLoop};

use crate::numbers::Names;
use crate::position::{Position, push_slot};
use std::alloc::AllocError;
use wa_model::{Operand, Stmt};
use wa_types::{Instr, ValType};

/// What is below a construct: how many operands below those of the construct around it, and how many in all.
#[derive(Clone, Copy)]
pub struct Outer {
    pub base: usize,
    pub height: usize,
}

/// The result local of a construct at this depth, where it has a result.
pub fn label_local(names: &Names, depth: usize, label: Option<ValType>) -> Option<u32>
    ensures { result ≡ result_at names.now depth label }
{
    match label {
        None => None,
        Some(ty) => Some(names.result(depth, ty)),
    }
}

/// Goes on at the beginning of a construct's body, or of each arm. Its label has this result.
#[inline(never)]
pub fn open(
    names: &Names,
    at: &mut Position,
    instr: &Instr,
    label: Option<ValType>,
) -> Result<Outer, AllocError>
    requires typed { TypedAt at.old.typing (in_front instr.now done) }
    requires opens { is_leaf instr.now ≡ false }
    ensures inside { OnOk result (Inside at.old.typing (in_front instr.now done) at.new.typing) }
    ensures labels { OnOk result (at.new.labels.items ≡ at.old.labels.items ++ result_at names.now (length at.old.labels.items) label ∷ []) }
    ensures slots { at.new.slots ≡ at.old.slots }
    ensures alloc { at.new.alloc ≡ at.old.alloc }
    ensures base { IfOk result (λ o. o.base ≡ length at.old.typing.under) }
    ensures height { IfOk result (λ o. o.height ≡ length at.old.slots.items) }
{
    let base = at.typing.base();
    let height = at.slots.len();
    let local = label_local(names, at.labels.len(), label);
    at.labels.push(local)?;
    at.typing.enter(instr)?;
    Ok(Outer { base, height })
}

/// Goes back to the beginning of a construct, for its other arm.
#[inline(never)]
pub fn restart(at: &mut Position, outer: Outer)
    ensures typing { at.new.typing ≡ record { around = at.old.typing.around; labels = at.old.typing.labels; own = []; under = at.old.typing.under } }
    ensures slots { at.new.slots.items ≡ take outer.height at.old.slots.items }
    ensures labels { at.new.labels ≡ at.old.labels }
    ensures alloc { at.new.alloc ≡ at.old.alloc }
{
    at.slots.truncate(outer.height);
    at.typing.restart();
}

/// Goes on behind a construct with this result, which has no slot yet.
#[inline(never)]
pub fn close(at: &mut Position, given: Option<ValType>, outer: Outer) -> Result<(), AllocError>
    requires { outer.base ≤ length at.old.typing.under }
    ensures typing { OnOk result (at.new.typing ≡ left_at given outer.base at.old.typing) }
    ensures slots { at.new.slots.items ≡ take outer.height at.old.slots.items }
    ensures labels { reverse at.new.labels.items ≡ drop 1 (reverse at.old.labels.items) }
    ensures alloc { at.new.alloc ≡ at.old.alloc }
{
    let _inner = at.labels.pop();
    at.slots.truncate(outer.height);
    at.typing.leave(given, outer.base)
}

/// Puts the move of a construct's result to its slot, where it has one.
#[inline(never)]
pub fn put_arrival(
    out: &mut Vec<Stmt>,
    names: &Names,
    at: &mut Position,
    given: Option<ValType>,
) -> Result<(), AllocError>
    requires { ArrivesAt names.now given at.old }
    ensures { OnOk result (Closed names.now given at.old at.new out.old.items out.new.items) }
{
    match given {
        None => Ok(()),
        Some(ty) => {
            let to = push_slot(names, at)?;
            let from = names.result(at.labels.len(), ty);
            out.push(Stmt::Move {
                to,
                from: Operand::Local(from),
            })?;
            Ok(())
        }
    }
}

/// Puts a block with these statements, and behind it the move of its result.
#[inline(never)]
pub fn put_block(
    out: &mut Vec<Stmt>,
    names: &Names,
    at: &mut Position,
    inner: Vec<Stmt>,
    given: Option<ValType>,
) -> Result<(), AllocError>
    requires { ArrivesAt names.now given at.old }
    ensures { OnOk result (PutBlock names.now given inner.items at.old at.new out.old.items out.new.items) }
{
    out.push(Stmt::Block(inner))?;
    put_arrival(out, names, at, given)
}

/// Puts a loop with these statements. Its result stands where it is.
#[inline(never)]
pub fn put_loop(
    out: &mut Vec<Stmt>,
    names: &Names,
    at: &mut Position,
    inner: Vec<Stmt>,
    given: Option<ValType>,
) -> Result<(), AllocError>
    requires { ArrivesAt names.now given at.old }
    ensures { OnOk result (PutLoop names.now inner.items at.old at.new out.old.items out.new.items) }
{
    out.push(Stmt::Loop(inner))?;
    match given {
        None => Ok(()),
        Some(_) => {
            push_slot(names, at)?;
            Ok(())
        }
    }
}

/// Puts an if with these arms.
#[inline(never)]
pub fn put_if(
    out: &mut Vec<Stmt>,
    cond: u32,
    then_arm: Vec<Stmt>,
    else_arm: Vec<Stmt>,
) -> Result<(), AllocError>
    ensures { OnOk result (out.new.items ≡ out.old.items ++ If (Local cond) then_arm else_arm ∷ []) }
{
    out.push(Stmt::If {
        cond: Operand::Local(cond),
        then_arm,
        else_arm,
    })?;
    Ok(())
}
