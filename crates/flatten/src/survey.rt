//! One pass over a body that marks the operands at each height and the results at each depth.

ghost use Rattle.std.specs.Prelude.{◌≡◌, ◌+◌, ◌<◌, ◌≤◌, ◌^◌, ◌||◌, ℕ, length, false, true, OnOk};
ghost use Rattle.wa_types.specs.Pruned.{is_last_instr};
ghost use Rattle.std.specs.List.{list_any};
ghost use Rattle.wa_types.specs.Frames.{pair_of, same_pair, shape_pair};
ghost use Rattle.wa_types.specs.Sizes.{code_items};
ghost use Rattle.wa_types.specs.Syntax.{branch, Code, done, nest, Shape};
ghost use Rattle.wa_types.specs.View.{code, in_front};
ghost use Rattle.wa_types.specs.declared.values.ValType.{ValType as AType};
ghost use Rattle.wa_types.specs.Leaves.{is_leaf};
ghost use Rattle.wasm_validate.specs.Walk.{Stays, TypedAt};
ghost use Rattle.flatten.specs.Emitting.{all_of, SmallTypes};
ghost use Rattle.flatten.specs.Numbers.{is_marked, pairs_in, same_at};
ghost use Rattle.flatten.specs.Surveying.{is_top, Marked, Surveyed, SurveyedOne};

use crate::marks::{Seen, mark};
use std::alloc::AllocError;
use wa_types::{Instr, ValType};
use wasm_validate::Typing;

/// What was found: types of operands at heights, and of results at depths.
#[derive(Drop)]
pub struct Found {
    pub slots: Vec<Seen>,
    pub results: Vec<Seen>,
}

/// Marks the topmost operand.
#[tactic(auto, using(crate::proofs::SurveyLemmas::topping))]
#[inline(never)]
fn visit(slots: &mut Vec<Seen>, typing: &Typing) -> Result<(), AllocError>
    ensures marked { OnOk result ((h : ℕ) (t : AType) → is_marked slots.new.items h t ≡ (is_top h t (all_of typing.now) || is_marked slots.old.items h t)) }
    ensures few { OnOk result (length (pairs_in 0 slots.new.items) ≤ length (pairs_in 0 slots.old.items) + 1) }
{
    let types = typing.types();
    let height = types.len();
    if height == 0 {
        return Ok(());
    }
    mark(slots, height - 1, types[height - 1])
}

/// Marks a construct's result, where it has one.
#[inline(never)]
pub fn visit_result(
    results: &mut Vec<Seen>,
    depth: usize,
    given: Option<ValType>,
) -> Result<(), AllocError>
    ensures marked { OnOk result ((d : ℕ) (t : AType) → is_marked results.new.items d t ≡ (list_any (same_pair d t) (pair_of depth given) || is_marked results.old.items d t)) }
    ensures few { OnOk result (length (pairs_in 0 results.new.items) ≤ length (pairs_in 0 results.old.items) + 1) }
{
    match given {
        None => Ok(()),
        Some(ty) => mark(results, depth, ty),
    }
}

/// Finds all of a body, or of an arm. Takes time linear in it.
#[cycle(survey_body)]
pub fn survey_body(
    found: &mut Found,
    typing: &mut Typing,
    depth: usize,
    body: &[Instr],
) -> Result<(), AllocError>
    requires typed { TypedAt typing.old (code body.now) }
    requires small { SmallTypes typing.old.around }
    requires depth { depth ≡ length typing.old.labels }
    requires room { depth + code_items (code body.now) < 2 ^ 64 }
    ensures { OnOk result (Surveyed typing.old typing.new (code body.now) found.old found.new) }
{
    for instr in body {
        if instr.is_last() {
            return Ok(());
        }
        survey_instr(found, typing, depth, instr)?;
    }
    Ok(())
}

/// Finds what an instruction adds behind which control goes on.
#[cycle(survey_body)]
fn survey_instr(
    found: &mut Found,
    typing: &mut Typing,
    depth: usize,
    instr: &Instr,
) -> Result<(), AllocError>
    requires goes_on { is_last_instr instr.now ≡ false }
    requires typed { TypedAt typing.old (in_front instr.now done) }
    requires small { SmallTypes typing.old.around }
    requires depth { depth ≡ length typing.old.labels }
    requires room { depth + code_items (in_front instr.now done) < 2 ^ 64 }
    ensures { OnOk result (SurveyedOne typing.old typing.new instr.now found.old found.new) }
{
    match instr {
        Instr::Block { result, body } => {
            visit_result(&mut found.results, depth, *result)?;
            survey_nest(found, typing, depth, instr, *result, body)
        }
        Instr::Loop { result, body } => survey_nest(found, typing, depth, instr, *result, body),
        Instr::If {
            result,
            then_arm,
            else_arm,
        } => {
            visit_result(&mut found.results, depth, *result)?;
            let arms = Arms { then_arm, else_arm };
            survey_arms(found, typing, depth, instr, *result, arms)
        }
        _ => {
            typing.advance(instr)?;
            visit(&mut found.slots, typing)
        }
    }
}

/// Finds what a block or loop adds whose own result is marked, where one is.
#[cycle(survey_body)]
fn survey_nest(
    found: &mut Found,
    typing: &mut Typing,
    depth: usize,
    instr: &Instr,
    given: Option<ValType>,
    body: &[Instr],
) -> Result<(), AllocError>
    requires opens { is_leaf instr.now ≡ false }
    requires nest { (s : Shape) × ((rest : Code) → in_front instr.now rest ≡ nest s given (code body.now) rest) }
    requires typed { TypedAt typing.old (in_front instr.now done) }
    requires small { SmallTypes typing.old.around }
    requires depth { depth ≡ length typing.old.labels }
    requires room { depth + code_items (in_front instr.now done) < 2 ^ 64 }
    ensures { OnOk result ((s : Shape) (a : Found) → ((rest : Code) → in_front instr.now rest ≡ nest s given (code body.now) rest) → Marked (shape_pair s depth given) a found.old
        → SurveyedOne typing.old typing.new instr.now a found.new) }
{
    let base = typing.base();
    typing.enter(instr)?;
    survey_body(found, typing, depth + 1, body)?;
    typing.leave(given, base)?;
    visit(&mut found.slots, typing)
}

/// The arms of an if.
#[derive(Clone, Copy)]
struct Arms<'a> {
    then_arm: &'a [Instr],
    else_arm: &'a [Instr],
}

/// Finds what an if adds whose own result is marked.
#[cycle(survey_body)]
fn survey_arms(
    found: &mut Found,
    typing: &mut Typing,
    depth: usize,
    instr: &Instr,
    given: Option<ValType>,
    arms: Arms<'_>,
) -> Result<(), AllocError>
    requires opens { is_leaf instr.now ≡ false }
    requires arms { (rest : Code) → in_front instr.now rest ≡ branch given (code arms.then_arm.now) (code arms.else_arm.now) rest }
    requires typed { TypedAt typing.old (in_front instr.now done) }
    requires small { SmallTypes typing.old.around }
    requires depth { depth ≡ length typing.old.labels }
    requires room { depth + code_items (in_front instr.now done) < 2 ^ 64 }
    ensures { OnOk result ((a : Found) → Marked (pair_of depth given) a found.old → SurveyedOne typing.old typing.new instr.now a found.new) }
{
    let base = typing.base();
    typing.enter(instr)?;
    survey_body(found, typing, depth + 1, arms.then_arm)?;
    typing.restart();
    survey_body(found, typing, depth + 1, arms.else_arm)?;
    typing.leave(given, base)?;
    visit(&mut found.slots, typing)
}
