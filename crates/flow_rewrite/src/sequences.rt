//! The guarded code of pieces and units.

ghost use Rattle.std.specs.Prelude.{◌≡◌, ◌<◌, ◌^◌, [], None, IfOk, OnOk};
ghost use Rattle.wa_types.specs.View.{code, onto};
ghost use Rattle.run_theory.specs.Flat.{followed_by};
ghost use Rattle.guard_form.specs.Guarded.{guarded_body, last_piece};
ghost use Rattle.guard_form.specs.Pieces.{flat_units, no_unit, numbers_in};
ghost use Rattle.flow_rewrite.specs.Begun.{last_begun, lead_of};
ghost use Rattle.flow_rewrite.specs.Raising.{Raisable};
ghost use Rattle.flow_rewrite.specs.Emitting.{indices};
ghost use Rattle.flow_rewrite.specs.Exits.{exit_of};
ghost use Rattle.flow_rewrite.specs.Fronts.{piece_behind, IsArm, IsFront, Ready, Stepped};
ghost use Rattle.flow_rewrite.specs.UnitView.{unit_in_front, units_of};

use crate::calls::{NumberedCall, put_call};
use crate::conditions::{Arms, put_condition};
use crate::exits::{ExitTo, Spot, at_unit, inside_block, inside_loop};
use crate::guards::{Guards, put_begun, put_guarded, put_in_front, put_restoring};
use crate::labels::put_raised;
use crate::pieces::{Pieces, Unit};
use crate::put::{put_block, put_if, put_loop};
use std::alloc::{AllocError, Global};
use wa_types::{Instr, copy_body};

/// The piece in front of what comes behind a unit.
fn next_piece(unit: &Unit) -> &[Instr]
    ensures { result.now ≡ piece_behind unit.now }
{
    match unit {
        Unit::Call { .. } => &[],
        Unit::Block { behind, .. } => behind,
        Unit::Loop { behind, .. } => behind,
        Unit::If { behind, .. } => behind,
    }
}

/// Puts the piece behind a sequence's last unit, as the last thing.
#[inline(never)]
fn put_last(
    guards: &Guards,
    out: &mut Vec<Instr>,
    exit: ExitTo,
    piece: &[Instr],
) -> Result<(), AllocError>
    requires { Raisable 0 2 (code piece.now) }
    ensures { OnOk result (code out.new.items ≡ onto out.old.items (last_piece (indices guards.now) (exit_of exit) (code piece.now))) }
{
    match exit {
        ExitTo::End => {
            put_guarded(guards, out, piece)?;
            Ok(())
        }
        ExitTo::FunctionEnd => {
            put_raised(guards.alloc, out, 0, piece)?;
            out.push(Instr::Return)?;
            Ok(())
        }
        _ => {
            put_raised(guards.alloc, out, 0, piece)?;
            Ok(())
        }
    }
}

/// Puts the same piece, where there are no units in front a lead too, in a test of the state for that alone.
#[inline(never)]
fn put_end(
    guards: &Guards,
    out: &mut Vec<Instr>,
    lead: Option<Vec<Instr>>,
    exit: ExitTo,
    piece: &[Instr],
) -> Result<(), AllocError>
    requires { Raisable 0 2 (code piece.now) }
    ensures { OnOk result (code out.new.items ≡ onto out.old.items (last_begun (indices guards.now) (lead_of lead) (exit_of exit) (code piece.now))) }
{
    match lead {
        None => {
            put_last(guards, out, exit, piece)?;
            Ok(())
        }
        Some(restoring) => {
            put_restoring(guards, out, restoring, &[])?;
            put_last(guards, out, exit, piece)?;
            Ok(())
        }
    }
}

/// Puts a copy of a body to none.
#[inline(never)]
fn put_body(alloc: Global, out: &mut Vec<Instr>, body: &[Instr]) -> Result<(), AllocError>
    ensures { OnOk result (code out.new.items ≡ code body.now) }
{
    *out = copy_body(alloc, body)?;
    Ok(())
}

/// Puts the guarded code of a piece and units to none, of which the first test of the state has the lead; the number of the next
/// numbered call.
#[cycle(write)]
fn write_sequence(
    guards: &Guards,
    out: &mut Vec<Instr>,
    spot: Spot,
    lead: Option<Vec<Instr>>,
    first: &[Instr],
    units: &[Unit],
) -> Result<u32, AllocError>
    requires empty { out.old.items ≡ [] }
    requires ready { Ready (exit_of spot.exit) spot.depth spot.number (code first.now) (units_of units.now) }
    ensures { IfOk result (λ n. IsFront guards.now (lead_of lead) (exit_of spot.exit) spot.depth spot.number (code first.now) (units_of units.now) out.new.items n) }
{
    let mut lead = lead;
    let mut piece = first;
    let mut next = spot.number;
    let mut left = units.len();
    for unit in units {
        left -= 1;
        let here = Spot {
            exit: at_unit(spot.exit, left > 0),
            depth: spot.depth,
            number: next,
        };
        next = put_unit(guards, out, here, lead.take(), piece, unit)?;
        piece = next_piece(unit);
    }
    put_end(guards, out, lead, spot.exit, piece)?;
    Ok(next)
}

/// Puts an arm to none: guarded where it holds a numbered call, else its piece as it is.
#[cycle(write)]
fn write_arm(
    guards: &Guards,
    out: &mut Vec<Instr>,
    spot: Spot,
    first: &[Instr],
    units: &[Unit],
) -> Result<u32, AllocError>
    requires empty { out.old.items ≡ [] }
    requires ready { Ready (exit_of spot.exit) spot.depth spot.number (code first.now) (units_of units.now) }
    ensures { IfOk result (λ n. IsArm guards.now (exit_of spot.exit) spot.depth spot.number (code first.now) (units_of units.now) out.new.items n) }
{
    if units.is_empty() {
        put_body(guards.alloc, out, first)?;
        return Ok(spot.number);
    }
    let next = write_sequence(guards, out, spot, None, first, units)?;
    Ok(next)
}

/// Puts a unit and the piece in front of it, where the first test of the state has the lead; the number of the next numbered call.
#[cycle(write)]
fn put_unit(
    guards: &Guards,
    out: &mut Vec<Instr>,
    spot: Spot,
    lead: Option<Vec<Instr>>,
    piece: &[Instr],
    unit: &Unit,
) -> Result<u32, AllocError>
    requires { Ready (exit_of spot.exit) spot.depth spot.number (code piece.now) (unit_in_front unit.now no_unit) }
    ensures { IfOk result (λ j. Stepped guards.now (lead_of lead) (exit_of spot.exit) spot.depth spot.number out.old.items out.new.items piece.now unit.now j) }
{
    match unit {
        Unit::Call {
            slots,
            target,
            to,
            behind,
        } => {
            let call = NumberedCall {
                slots,
                target: *target,
                to: *to,
                behind,
            };
            put_call(guards, out, lead, spot, piece, call)?;
            Ok(spot.number + 1)
        }
        Unit::Block { first, body, .. } => {
            let lead = put_in_front(guards, out, lead, piece)?;
            let exit = inside_block(spot.exit);
            let inside = Spot {
                exit,
                depth: spot.depth + 1,
                number: spot.number,
            };
            let mut inner = Vec::new(guards.alloc);
            let next = write_sequence(guards, &mut inner, inside, lead, first, body)?;
            put_block(out, None, inner)?;
            Ok(next)
        }
        Unit::Loop { first, body, .. } => {
            put_begun(guards, out, lead, piece)?;
            let exit = inside_loop(spot.exit);
            let inside = Spot {
                exit,
                depth: spot.depth + 1,
                number: spot.number,
            };
            let mut inner = Vec::new(guards.alloc);
            let next = write_sequence(guards, &mut inner, inside, None, first, body)?;
            put_loop(out, None, inner)?;
            Ok(next)
        }
        Unit::If {
            cond,
            then_first,
            then_units,
            else_first,
            else_units,
            ..
        } => {
            let exit = inside_block(spot.exit);
            let inside = Spot {
                exit,
                depth: spot.depth + 1,
                number: spot.number,
            };
            let mut then_arm = Vec::new(guards.alloc);
            let middle = write_arm(guards, &mut then_arm, inside, then_first, then_units)?;
            let inside = Spot {
                exit,
                depth: spot.depth + 1,
                number: middle,
            };
            let mut else_arm = Vec::new(guards.alloc);
            let next = write_arm(guards, &mut else_arm, inside, else_first, else_units)?;
            let arms = Arms {
                then_units,
                else_units,
                else_number: middle,
            };
            put_condition(guards, out, lead, piece, *cond, arms)?;
            put_if(out, None, then_arm, else_arm)?;
            Ok(next)
        }
    }
}

/// The guarded code of a function's sequence, the first test of the state in which restores the frame by these instructions: in state 0
/// it returns, else it is left by the label of the block that it stands in. The labels of its flat code can be raised, and it has fewer
/// than 2^32 numbered calls.
pub fn guarded_pieces(
    guards: &Guards,
    restoring: Vec<Instr>,
    pieces: &Pieces,
) -> Result<Vec<Instr>, AllocError>
    requires labels { Raisable 0 2 (followed_by (code pieces.now.first.items) (flat_units (units_of pieces.now.units.items))) }
    requires few { numbers_in (units_of pieces.now.units.items) < 2 ^ 32 }
    ensures { IfOk result (λ v. code v.items ≡ guarded_body (indices guards.now) (followed_by (code restoring.items)) (code pieces.now.first.items) (units_of pieces.now.units.items)) }
{
    let spot = Spot {
        exit: ExitTo::FunctionEnd,
        depth: 0,
        number: 0,
    };
    let mut out = Vec::new(guards.alloc);
    write_sequence(
        guards,
        &mut out,
        spot,
        Some(restoring),
        &pieces.first,
        &pieces.units,
    )?;
    Ok(out)
}
