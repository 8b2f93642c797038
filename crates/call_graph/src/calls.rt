//! The calls of a body that can be reached: `call` with its function, `call_indirect` with its type.

ghost use Rattle.std.specs.Prelude.{◌≡◌, ◌++◌, ◌∷◌, [], map, IfOk, OnOk};
ghost use Rattle.call_graph.specs.Calls.{callee_of};
ghost use Rattle.wa_types.specs.Pausing.{calls_of};
ghost use Rattle.wa_types.specs.Pruned.{pruned};
ghost use Rattle.wa_types.specs.Syntax.{done};
ghost use Rattle.wa_types.specs.View.{code, in_front};

use std::alloc::{AllocError, Global};
use wa_types::Instr;

/// What a call goes to: a function by its index, or one of the table by the index of its type.
#[derive(Clone, Copy)]
pub(crate) enum Callee {
    Direct(u32),
    Indirect(u32),
}

/// The calls of a body that can be reached, in order of code.
pub(crate) fn body_calls(alloc: Global, body: &[Instr]) -> Result<Vec<Callee>, AllocError>
    ensures { IfOk result (λ v. map callee_of v.items ≡ calls_of (pruned (code body.now))) }
{
    let mut calls = Vec::new(alloc);
    put_calls(&mut calls, body)?;
    Ok(calls)
}

/// Appends a call.
fn put_call(out: &mut Vec<Callee>, call: Callee) -> Result<(), AllocError>
    ensures { OnOk result (map callee_of out.new.items ≡ map callee_of out.old.items ++ callee_of call ∷ []) }
{
    out.push(call)?;
    Ok(())
}

/// Appends the calls of a body that can be reached.
#[cycle(put_calls)]
#[tactic(auto, using(crate::proofs::CallLemmas::calling))]
fn put_calls(out: &mut Vec<Callee>, body: &[Instr]) -> Result<(), AllocError>
    ensures { OnOk result (map callee_of out.new.items ≡ map callee_of out.old.items ++ calls_of (pruned (code body.now))) }
{
    for instr in body {
        put_instr_calls(out, instr)?;
        if instr.is_last() {
            return Ok(());
        }
    }
    Ok(())
}

/// Appends the calls of one instruction and of those inside it.
#[cycle(put_calls)]
#[tactic(auto, using(crate::proofs::CallLemmas::calling))]
fn put_instr_calls(out: &mut Vec<Callee>, instr: &Instr) -> Result<(), AllocError>
    ensures { OnOk result (map callee_of out.new.items ≡ map callee_of out.old.items ++ calls_of (pruned (in_front instr.now done))) }
{
    match instr {
        Instr::Call(func) => put_call(out, Callee::Direct(*func)),
        Instr::CallIndirect(sort) => put_call(out, Callee::Indirect(*sort)),
        Instr::Block { result: _, body } => put_calls(out, body),
        Instr::Loop { result: _, body } => put_calls(out, body),
        Instr::If {
            result: _,
            then_arm,
            else_arm,
        } => {
            put_calls(out, then_arm)?;
            put_calls(out, else_arm)
        }
        _ => Ok(()),
    }
}
