//! The body of a written function: its guarded pieces in a block, where the first test of the state restores its frame, and behind
//! the block the code that saves it.

ghost use Rattle.std.specs.Prelude.{◌≡◌, ◌≤◌, ◌<◌, ◌^◌, ◌-◌, length, None, IfOk, OnOk};
ghost use Rattle.wa_types.specs.Syntax.{Func as PlainFunc, Module as PlainModule, a_block, done, nest};
ghost use Rattle.wa_types.specs.View.{code, onto};
ghost use Rattle.wa_model.specs.Step.{zero_of};
ghost use Rattle.run_theory.specs.Flat.{followed_by};
ghost use Rattle.run_theory.specs.FlatFits.{FlatFits};
ghost use Rattle.run_theory.specs.FlatView.{flat_func_of};
ghost use Rattle.local_spill.specs.Spilling.{restoring, saving, spill_indices};
ghost use Rattle.frame_laws.specs.Function.{result_type, value_code};
ghost use Rattle.guard_form.specs.Pieces.{call_total};
ghost use Rattle.flow_rewrite.specs.Emitting.{Rises};
ghost use Rattle.func_rewrite.specs.Bodies.{IsSlimBody};
ghost use Rattle.func_rewrite.specs.Frames.{IsFlattened};

use flatten::Flattened;
use local_spill::{Layout, RuntimeIds, restoring, saving};
use slim_rewrite::{Slots, guard_slim};
use std::alloc::{AllocError, Global};
use wa_types::{Instr, ValType, Value};

/// The type of the local that holds a result.
fn result_type(locals: &[ValType], local: Option<u32>) -> Option<ValType>
    ensures { result ≡ result_type locals.now local }
{
    locals.get(local? as usize).copied()
}

/// The zero of a type.
fn zero_of(ty: ValType) -> Value
    ensures { result ≡ zero_of ty }
{
    match ty {
        ValType::I32 => Value::I32(0),
        ValType::I64 => Value::I64(0),
    }
}

/// Puts a value of this type, where there is one.
fn put_value(out: &mut Vec<Instr>, ty: Option<ValType>) -> Result<(), AllocError>
    ensures { OnOk result (code out.new.items ≡ onto out.old.items (value_code ty)) }
{
    if let Some(ty) = ty {
        out.push(Instr::Const(zero_of(ty)))?;
    }
    Ok(())
}

/// Guarded pieces in a block, the end of which only a run that pauses comes to, and behind it the code that saves a frame, with a
/// value of the result's type, which nothing reads.
fn with_end(
    alloc: Global,
    guarded: Vec<Instr>,
    saved: Vec<Instr>,
    given: Option<ValType>,
) -> Result<Vec<Instr>, AllocError>
    ensures { IfOk result (λ v. code v.items ≡ nest a_block None (code guarded.items) (followed_by (code saved.items) (value_code given))) }
{
    let mut body = Vec::new(alloc);
    body.push(Instr::Block {
        result: None,
        body: guarded,
    })?;
    let mut behind = saved;
    body.append(&mut behind)?;
    put_value(&mut body, given)?;
    Ok(body)
}

/// The body of a written function, whose numbered calls have these places, of slim pieces, with the codes that restore and that save
/// its frame. The flat function loses its statements.
pub fn body_around(
    alloc: Global,
    flat: &mut Flattened,
    numbers: &[u32],
    restored: Vec<Instr>,
    saved: Vec<Instr>,
    state: u32,
) -> Result<Vec<Instr>, AllocError>
    requires fits { FlatFits (flat_func_of flat.old.func) }
    requires rises { Rises numbers.now }
    requires few { call_total (flat_func_of flat.old.func).body < 2 ^ 32 }
    requires slots { flat.old.first_slot ≤ flat.old.first_result }
    ensures { IfOk result (λ v. (m : PlainModule) (f : PlainFunc) → IsFlattened m f flat.old
        → IsSlimBody m numbers.now state flat.old.func.func f (code restored.items) (code saved.items) (code v.items)) }
{
    let given = result_type(&flat.func.locals, flat.func.result);
    let slots = Slots {
        low: flat.first_slot,
        count: (flat.first_result - flat.first_slot) as usize,
    };
    let guarded = guard_slim(alloc, &mut flat.func, numbers, state, slots, restored)?;
    with_end(alloc, guarded, saved, given)
}

/// The body of the written function, whose numbered calls have these places and whose frame keeps these locals.
pub(crate) fn written_body(
    alloc: Global,
    flat: &mut Flattened,
    numbers: &[u32],
    frame: &Layout,
    ids: &RuntimeIds,
) -> Result<Vec<Instr>, AllocError>
    requires fits { FlatFits (flat_func_of flat.old.func) }
    requires rises { Rises numbers.now }
    requires few { call_total (flat_func_of flat.old.func).body < 2 ^ 32 }
    requires slots { flat.old.first_slot ≤ flat.old.first_result }
    requires size { 4 ≤ frame.now.size }
    ensures { IfOk result (λ v. (m : PlainModule) (f : PlainFunc) → IsFlattened m f flat.old
        → IsSlimBody m numbers.now ids.now.state flat.old.func.func f (restoring (spill_indices (length flat.old.func.locals.items) ids.now) (frame.now.size - 4) frame.now.places.items done)
        (saving (spill_indices (length flat.old.func.locals.items) ids.now) (frame.now.size - 4) frame.now.places.items done) (code v.items)) }
{
    let base = flat.func.locals.len() as u32;
    let restored = restoring(alloc, frame, base, ids)?;
    let saved = saving(alloc, frame, base, ids)?;
    body_around(alloc, flat, numbers, restored, saved, ids.state)
}
