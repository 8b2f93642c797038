//! `call` and `call_indirect` in flat form.

ghost use Rattle.std.specs.Prelude.{◌≡◌, true, OnOk};
ghost use Rattle.wa_types.specs.Syntax.{done};
ghost use Rattle.wa_types.specs.View.{in_front};
ghost use Rattle.wa_types.specs.declared.instrs.Instr.TheVariants.{Call, CallIndirect};
ghost use Rattle.wa_types.specs.Leaves.{is_leaf};
ghost use Rattle.wasm_validate.specs.Walk.{TypedAt};
ghost use Rattle.flatten.specs.Emitting.{CallAt, Put, Ready, SmallTypes};

use crate::leaves::put_to;
use crate::numbers::Names;
use crate::position::Position;
use std::alloc::AllocError;
use wa_model::Stmt;
use wa_types::{Instr, copy_leaf};

/// Puts what a call stands for that takes so many operands, and whether it has a result.
fn put_any_call(
    out: &mut Vec<Stmt>,
    names: &Names,
    at: &mut Position,
    instr: &Instr,
    taken: u32,
    given: bool,
) -> Result<(), AllocError>
    requires call { CallAt names.now at.old.typing instr.now taken given }
    requires leaf { is_leaf instr.now ≡ true }
    requires typed { TypedAt at.old.typing (in_front instr.now done) }
    requires ready { Ready names.now at.old }
    ensures { OnOk result (Put names.now at.old at.new instr.now out.old.items out.new.items) }
{
    let stack = Vec::from_slice(at.alloc, &at.slots)?;
    let op = copy_leaf(at.alloc, instr)?;
    at.typing.advance(instr)?;
    let kept = at.slots.len() - taken as usize;
    at.slots.truncate(kept);
    let to = put_to(names, at, given)?;
    out.push(Stmt::Call {
        op,
        stack,
        args: taken,
        to,
    })?;
    Ok(())
}

/// Puts what a `call` stands for.
pub fn put_call(
    out: &mut Vec<Stmt>,
    names: &Names,
    at: &mut Position,
    instr: &Instr,
    func: u32,
) -> Result<(), AllocError>
    requires is { instr.now ≡ Call func }
    requires small { SmallTypes at.old.typing.around }
    requires typed { TypedAt at.old.typing (in_front instr.now done) }
    requires ready { Ready names.now at.old }
    ensures { OnOk result (Put names.now at.old at.new instr.now out.old.items out.new.items) }
{
    let Some(ty) = at.typing.func_type(func) else {
        unreachable!();
    };
    let taken = ty.params.len() as u32;
    let given = ty.results.len() > 0;
    put_any_call(out, names, at, instr, taken, given)
}

/// Puts what a `call_indirect` stands for.
pub fn put_call_indirect(
    out: &mut Vec<Stmt>,
    names: &Names,
    at: &mut Position,
    instr: &Instr,
    sort: u32,
) -> Result<(), AllocError>
    requires is { instr.now ≡ CallIndirect sort }
    requires small { SmallTypes at.old.typing.around }
    requires typed { TypedAt at.old.typing (in_front instr.now done) }
    requires ready { Ready names.now at.old }
    ensures { OnOk result (Put names.now at.old at.new instr.now out.old.items out.new.items) }
{
    let Some(ty) = at.typing.sort(sort) else {
        unreachable!();
    };
    let taken = ty.params.len() as u32 + 1;
    let given = ty.results.len() > 0;
    put_any_call(out, names, at, instr, taken, given)
}
