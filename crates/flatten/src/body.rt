//! The statements of a body or an arm, instruction by instruction and construct by construct.

ghost use Rattle.std.specs.Prelude.{◌≡◌, ◌+◌, ◌<◌, ◌^◌, [], length, false, true, OnOk};
ghost use Rattle.wa_types.specs.Pruned.{is_last_instr};
ghost use Rattle.wa_types.specs.Sizes.{code_items};
ghost use Rattle.wa_types.specs.Syntax.{done};
ghost use Rattle.wa_types.specs.View.{code, in_front};
ghost use Rattle.run_theory.specs.FlatView.{stmts};
ghost use Rattle.wa_types.specs.Leaves.{is_leaf};
ghost use Rattle.wasm_validate.specs.Walk.{Stays, TypedAt};
ghost use Rattle.flatten.specs.Emitting.{flat_at, Put, Ready, SmallTypes};

use crate::calls::{put_call, put_call_indirect};
use crate::constructs::{close, open, put_arrival, put_block, put_if, put_loop, restart};
use crate::jumps::put_last;
use crate::leaves::{basic_result, put_basic, put_br_if, put_get, put_set, put_tee};
use crate::numbers::Names;
use crate::position::{Position, pop_slot, put_carry, top_slot};
use std::alloc::AllocError;
use wa_model::Stmt;
use wa_types::Instr;

/// Puts the statements of a body, or of an arm, to none. They are put where they stand, so that little stands on the stack at a level.
#[cycle(body_stmts)]
pub fn body_stmts(
    out: &mut Vec<Stmt>,
    names: &Names,
    at: &mut Position,
    body: &[Instr],
) -> Result<(), AllocError>
    requires empty { out.old.items ≡ [] }
    requires typed { TypedAt at.old.typing (code body.now) }
    requires ready { Ready names.now at.old }
    requires small { SmallTypes at.old.typing.around }
    requires room { length at.old.labels.items + code_items (code body.now) < 2 ^ 32 }
    requires inside { 0 < length at.old.labels.items }
    ensures ready { OnOk result (Ready names.now at.new) }
    ensures stays { OnOk result (Stays at.old.typing at.new.typing) }
    ensures stmts { OnOk result (stmts out.new.items ≡ flat_at names.now at.old.typing (code body.now)) }
{
    for instr in body {
        if instr.is_last() {
            put_last(out, names, at, instr)?;
            return Ok(());
        }
        put_instr(out, names, at, instr)?;
    }
    let from = top_slot(&at.slots);
    put_carry(out, &at.labels, 0, from)?;
    Ok(())
}

/// Puts what an instruction stands for behind which control goes on.
#[cycle(body_stmts)]
fn put_instr(
    out: &mut Vec<Stmt>,
    names: &Names,
    at: &mut Position,
    instr: &Instr,
) -> Result<(), AllocError>
    requires goes_on { is_last_instr instr.now ≡ false }
    requires typed { TypedAt at.old.typing (in_front instr.now done) }
    requires ready { Ready names.now at.old }
    requires small { SmallTypes at.old.typing.around }
    requires room { length at.old.labels.items + code_items (in_front instr.now done) < 2 ^ 32 }
    requires inside { 0 < length at.old.labels.items }
    ensures { OnOk result (Put names.now at.old at.new instr.now out.old.items out.new.items) }
{
    match instr {
        Instr::Block { result, body } => {
            let outer = open(names, at, instr, *result)?;
            let mut inner = Vec::new(at.alloc);
            body_stmts(&mut inner, names, at, body)?;
            close(at, *result, outer)?;
            put_block(out, names, at, inner, *result)
        }
        Instr::Loop { result, body } => {
            let outer = open(names, at, instr, None)?;
            let mut inner = Vec::new(at.alloc);
            body_stmts(&mut inner, names, at, body)?;
            close(at, *result, outer)?;
            put_loop(out, names, at, inner, *result)
        }
        Instr::If {
            result,
            then_arm,
            else_arm,
        } => {
            let cond = pop_slot(&mut at.slots);
            let outer = open(names, at, instr, *result)?;
            let mut first = Vec::new(at.alloc);
            body_stmts(&mut first, names, at, then_arm)?;
            restart(at, outer);
            let mut second = Vec::new(at.alloc);
            body_stmts(&mut second, names, at, else_arm)?;
            close(at, *result, outer)?;
            put_if(out, cond, first, second)?;
            put_arrival(out, names, at, *result)
        }
        _ => put_leaf(out, names, at, instr),
    }
}

/// Puts what an instruction stands for that holds no other.
#[inline(never)]
fn put_leaf(
    out: &mut Vec<Stmt>,
    names: &Names,
    at: &mut Position,
    instr: &Instr,
) -> Result<(), AllocError>
    requires leaf { is_leaf instr.now ≡ true }
    requires goes_on { is_last_instr instr.now ≡ false }
    requires typed { TypedAt at.old.typing (in_front instr.now done) }
    requires ready { Ready names.now at.old }
    requires small { SmallTypes at.old.typing.around }
    ensures { OnOk result (Put names.now at.old at.new instr.now out.old.items out.new.items) }
{
    match instr {
        Instr::LocalGet(x) => put_get(out, names, at, instr, *x),
        Instr::LocalSet(x) => put_set(out, names, at, instr, *x),
        Instr::LocalTee(x) => put_tee(out, names, at, instr, *x),
        Instr::BrIf(label) => put_br_if(out, names, at, instr, *label),
        Instr::Call(func) => put_call(out, names, at, instr, *func),
        Instr::CallIndirect(sort) => put_call_indirect(out, names, at, instr, *sort),
        _ => match basic_result(instr) {
            Some(given) => put_basic(out, names, at, instr, given),
            None => unreachable!(),
        },
    }
}
