//! The operands at each point of a body and just before each of its calls.

ghost use Rattle.std.specs.Prelude.{◌≡◌, ◌++◌, ◌∷◌, [], false, OnOk};
ghost use Rattle.wa_types.specs.Syntax.{done};
ghost use Rattle.wa_types.specs.View.{code, in_front};
ghost use Rattle.wasm_validate.specs.Walk.{TypedAt};
ghost use Rattle.frame_sizes.specs.Points.{all_of, lists_of, Visited, VisitedInside};

use std::alloc::{AllocError, Global};
use wa_types::{Instr, ValType};
use wasm_validate::Typing;

/// The operands at points and just before calls, in order of code, each list the deepest operand first.
#[derive(Drop)]
pub struct Visits {
    pub points: Vec<Vec<ValType>>,
    pub calls: Vec<Vec<ValType>>,
}

/// Puts the operands where a walk stands.
#[tactic(auto, using(crate::proofs::PointLemmas::putting))]
fn put_point(alloc: Global, out: &mut Vec<Vec<ValType>>, typing: &Typing) -> Result<(), AllocError>
    ensures { OnOk result (lists_of out.new.items ≡ lists_of out.old.items ++ all_of typing.now ∷ []) }
{
    out.push(Vec::from_slice(alloc, typing.types())?)?;
    Ok(())
}

/// Puts what stands at the points of a body or of an arm, and at its calls.
#[cycle(visit)]
pub fn visit_body(
    alloc: Global,
    visits: &mut Visits,
    typing: &mut Typing,
    body: &[Instr],
) -> Result<(), AllocError>
    requires { TypedAt typing.old (code body.now) }
    ensures { OnOk result (Visited typing.old (code body.now) visits.old visits.new) }
{
    for instr in body {
        put_point(alloc, &mut visits.points, typing)?;
        if instr.is_last() {
            return Ok(());
        }
        visit_instr(alloc, visits, typing, instr)?;
        typing.advance(instr)?;
    }
    put_point(alloc, &mut visits.points, typing)
}

/// Puts what stands at the points inside an instruction, and at the calls inside it or where it is one.
#[cycle(visit)]
fn visit_instr(
    alloc: Global,
    visits: &mut Visits,
    typing: &Typing,
    instr: &Instr,
) -> Result<(), AllocError>
    requires { TypedAt typing.now (in_front instr.now done) }
    ensures { OnOk result (VisitedInside typing.now (in_front instr.now done) visits.old visits.new) }
{
    match instr {
        Instr::Call(_) => put_point(alloc, &mut visits.calls, typing),
        Instr::CallIndirect(_) => put_point(alloc, &mut visits.calls, typing),
        Instr::Block { body, .. } => {
            let mut inner = typing.inside(instr)?;
            visit_body(alloc, visits, &mut inner, body)
        }
        Instr::Loop { body, .. } => {
            let mut inner = typing.inside(instr)?;
            visit_body(alloc, visits, &mut inner, body)
        }
        Instr::If {
            then_arm,
            else_arm,
            ..
        } => {
            let mut inner = typing.inside(instr)?;
            visit_body(alloc, visits, &mut inner, then_arm)?;
            let mut inner = typing.inside(instr)?;
            visit_body(alloc, visits, &mut inner, else_arm)
        }
        _ => Ok(()),
    }
}
