//! Conditions of ifs with numbered calls.

ghost use Rattle.std.specs.Prelude.{◌≡◌, ◌+◌, ℕ, IfOk, OnOk};
ghost use Rattle.wa_types.specs.View.{code};
ghost use Rattle.guard_form.specs.Guarded.{choice};
ghost use Rattle.guard_form.specs.Pieces.{got_any, numbers_in};
ghost use Rattle.flow_rewrite.specs.Putting.{Puts};
ghost use Rattle.flow_rewrite.specs.Raising.{Raisable};
ghost use Rattle.flow_rewrite.specs.Emitting.{indices};
ghost use Rattle.flow_rewrite.specs.Begun.{condition_code, lead_of, led};
ghost use Rattle.flow_rewrite.specs.UnitView.{units_of};

use crate::guards::{Guards, lead_or_none};
use crate::labels::raised;
use crate::pieces::Unit;
use crate::put::{put_index, put_operand, put_test};
use std::alloc::AllocError;
use wa_model::Operand;
use wa_types::{Instr, NumOp, ValType, Value};

/// The units of an `if`'s arms, and the number of the else arm's first numbered call.
#[derive(Clone, Copy)]
pub(crate) struct Arms<'a> {
    pub then_units: &'a [Unit],
    pub else_units: &'a [Unit],
    pub else_number: u32,
}

/// Which arm is gone into in a state that isn't 0, behind the lead.
fn choose(
    guards: &Guards,
    lead: Option<Vec<Instr>>,
    arms: Arms<'_>,
) -> Result<Vec<Instr>, AllocError>
    ensures { IfOk result (λ v. (first : ℕ) → arms.entry.else_number ≡ first + numbers_in (units_of arms.entry.then_units.now)
        → code v.items ≡ led (lead_of lead) (choice (indices guards.now) first (units_of arms.entry.then_units.now) (units_of arms.entry.else_units.now))) }
{
    let mut out = lead_or_none(guards.alloc, lead);
    if arms.else_units.is_empty() {
        out.push(Instr::Const(Value::I32(1)))?;
        return Ok(out);
    }
    if arms.then_units.is_empty() {
        out.push(Instr::Const(Value::I32(0)))?;
        return Ok(out);
    }
    put_index(&mut out, guards.index, arms.else_number, NumOp::I32LtU)?;
    Ok(out)
}

/// Puts an operand, where one is told.
fn put_any(out: &mut Vec<Instr>, cond: Option<Operand>) -> Result<(), AllocError>
    ensures { OnOk result (Puts out.old.items out.new.items (got_any cond)) }
{
    match cond {
        None => Ok(()),
        Some(operand) => {
            put_operand(out, operand)?;
            Ok(())
        }
    }
}

/// Puts the condition of an `if` behind the piece in front of it, or in a state that isn't 0 the choice of the arm behind the lead,
/// whatever the number of the then arm's first call.
#[inline(never)]
pub(crate) fn put_condition(
    guards: &Guards,
    out: &mut Vec<Instr>,
    lead: Option<Vec<Instr>>,
    piece: &[Instr],
    cond: Option<Operand>,
    arms: Arms<'_>,
) -> Result<(), AllocError>
    requires { Raisable 0 2 (code piece.now) }
    ensures { OnOk result ((first : ℕ) → arms.entry.else_number ≡ first + numbers_in (units_of arms.entry.then_units.now)
        → Puts out.old.items out.new.items (condition_code (indices guards.now) (lead_of lead) first (code piece.now) cond
        (units_of arms.entry.then_units.now) (units_of arms.entry.else_units.now))) }
{
    let sought = choose(guards, lead, arms)?;
    let mut inside = raised(guards.alloc, 0, 1, piece)?;
    put_any(&mut inside, cond)?;
    put_test(out, guards.state, Some(ValType::I32), sought, inside)?;
    Ok(())
}
