//! What guards are written by, the guard of a piece, and the first test of a function.

ghost use Rattle.std.specs.Prelude.{◌≡◌, None, Some, IfOk, OnOk};
ghost use Rattle.wa_types.specs.Syntax.{Code};
ghost use Rattle.wa_types.specs.View.{code, onto};
ghost use Rattle.guard_form.specs.Guarded.{guarded};
ghost use Rattle.flow_rewrite.specs.Begun.{guarded_begun, lead_of, led, Fronted};
ghost use Rattle.flow_rewrite.specs.Putting.{Puts};
ghost use Rattle.flow_rewrite.specs.Emitting.{indices};
ghost use Rattle.flow_rewrite.specs.Raising.{Raisable};

use crate::labels::raised;
use crate::put::put_test;
use std::alloc::{AllocError, Global};
use wa_types::Instr;

/// What the guards of one function are written by: the global of the state and the local of the call index; and whether
/// call 0 isn't noted.
#[derive(Drop)]
pub struct Guards {
    pub alloc: Global,
    pub state: u32,
    pub index: u32,
    pub first_unnoted: bool,
}

/// Puts a piece under a test of the state, where it isn't empty.
#[inline(never)]
pub fn put_guarded(guards: &Guards, out: &mut Vec<Instr>, piece: &[Instr]) -> Result<(), AllocError>
    requires { Raisable 0 1 (code piece.now) }
    ensures { OnOk result (Puts out.old.items out.new.items (guarded (indices guards.now) (code piece.now))) }
{
    if piece.is_empty() {
        return Ok(());
    }
    let inside = raised(guards.alloc, 0, 1, piece)?;
    put_test(out, guards.state, None, Vec::new(guards.alloc), inside)?;
    Ok(())
}

/// Puts a test of the state that restores the frame by these instructions, and a piece for state 0.
#[inline(never)]
pub(crate) fn put_restoring(
    guards: &Guards,
    out: &mut Vec<Instr>,
    restoring: Vec<Instr>,
    piece: &[Instr],
) -> Result<(), AllocError>
    requires { Raisable 0 1 (code piece.now) }
    ensures { OnOk result (Puts out.old.items out.new.items (guarded_begun (indices guards.now) (Some (code restoring.items)) (code piece.now))) }
{
    let inside = raised(guards.alloc, 0, 1, piece)?;
    put_test(out, guards.state, None, restoring, inside)?;
    Ok(())
}

/// Puts a piece under a test of the state: where the test is a function's first, it restores the frame by the lead, and stands without
/// a piece too.
#[inline(never)]
pub(crate) fn put_begun(
    guards: &Guards,
    out: &mut Vec<Instr>,
    lead: Option<Vec<Instr>>,
    piece: &[Instr],
) -> Result<(), AllocError>
    requires { Raisable 0 1 (code piece.now) }
    ensures { OnOk result (Puts out.old.items out.new.items (guarded_begun (indices guards.now) (lead_of lead) (code piece.now))) }
{
    match lead {
        None => {
            put_guarded(guards, out, piece)?;
            Ok(())
        }
        Some(restoring) => {
            put_restoring(guards, out, restoring, piece)?;
            Ok(())
        }
    }
}

/// Puts the piece in front of a block; the lead of the block's own sequence.
#[inline(never)]
pub(crate) fn put_in_front(
    guards: &Guards,
    out: &mut Vec<Instr>,
    lead: Option<Vec<Instr>>,
    piece: &[Instr],
) -> Result<Option<Vec<Instr>>, AllocError>
    requires { Raisable 0 1 (code piece.now) }
    ensures { IfOk result (λ inner. Fronted (indices guards.now) (lead_of lead) (lead_of inner) out.old.items out.new.items (code piece.now)) }
{
    if piece.is_empty() {
        return Ok(lead);
    }
    put_begun(guards, out, lead, piece)?;
    Ok(None)
}

/// The lead, for more to be put behind it.
pub(crate) fn lead_or_none(alloc: Global, lead: Option<Vec<Instr>>) -> Vec<Instr>
    ensures { (rest : Code) → onto result.items rest ≡ led (lead_of lead) rest }
{
    match lead {
        None => Vec::new(alloc),
        Some(restoring) => restoring,
    }
}
