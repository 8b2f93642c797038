//! Numbered calls.

ghost use Rattle.std.specs.Prelude.{◌≡◌, ◌<◌, ◌^◌, false, OnOk};
ghost use Rattle.wa_types.specs.Syntax.{Code, plain};
ghost use Rattle.wa_types.specs.View.{code, onto};
ghost use Rattle.run_theory.specs.Flat.{followed_by, set_to, slots_got};
ghost use Rattle.guard_form.specs.Guarded.{call_guarded, ending, noted, own_block, raised};
ghost use Rattle.guard_form.specs.Pieces.{call_to};
ghost use Rattle.flow_rewrite.specs.Begun.{call_begun, lead_of, sought_begun};
ghost use Rattle.flow_rewrite.specs.Putting.{Puts};
ghost use Rattle.flow_rewrite.specs.Raising.{Raisable};
ghost use Rattle.flow_rewrite.specs.Emitting.{indices};
ghost use Rattle.flow_rewrite.specs.Exits.{exit_of, LabelBelow};
ghost use Rattle.flow_rewrite.specs.UnitView.{callee_of};

use crate::exits::{ExitTo, Spot};
use crate::guards::{Guards, lead_or_none, put_begun};
use crate::labels::{put_raised, raised};
use crate::pieces::Target;
use crate::put::{put_index, put_noted, put_slots, put_test, put_to};
use std::alloc::AllocError;
use wa_types::{Instr, NumOp};

/// Puts the instruction that calls this.
fn put_target(out: &mut Vec<Instr>, target: Target) -> Result<(), AllocError>
    ensures { OnOk result (Puts out.old.items out.new.items (λ c. plain (call_to (callee_of target)) c)) }
{
    match target {
        Target::Direct(func) => out.push(Instr::Call(func))?,
        Target::Indirect(sort) => out.push(Instr::CallIndirect(sort))?,
    }
    Ok(())
}

/// How a numbered call is sought: the label by which a run leaves whose index isn't the call's, by how much labels of the piece in front
/// are raised, and the call's number.
#[derive(Clone, Copy)]
struct Search {
    label: u32,
    by: u32,
    number: u32,
}

/// Puts the search of a numbered call: in state 0 the piece in front of it, else the lead, and out by the label where the index isn't
/// the call's.
fn put_search(
    guards: &Guards,
    out: &mut Vec<Instr>,
    lead: Option<Vec<Instr>>,
    search: Search,
    piece: &[Instr],
) -> Result<(), AllocError>
    requires { Raisable 0 search.by (code piece.now) }
    ensures { OnOk result (Puts out.old.items out.new.items (sought_begun (indices guards.now) (lead_of lead) search.label search.by search.number (code piece.now))) }
{
    let mut other = lead_or_none(guards.alloc, lead);
    put_index(&mut other, guards.index, search.number, NumOp::I32Ne)?;
    other.push(Instr::BrIf(search.label))?;
    let inside = raised(guards.alloc, 0, search.by, piece)?;
    put_test(out, guards.state, None, other, inside)?;
    Ok(())
}

/// A numbered call as it is put: the locals that it takes, what it goes to, the local of its result, and the piece behind it.
#[derive(Clone, Copy)]
pub(crate) struct NumberedCall<'a> {
    pub slots: &'a [u32],
    pub target: Target,
    pub to: Option<u32>,
    pub behind: &'a [Instr],
}

/// Puts a numbered call with its arguments, what notes it and leaves the function's block by this label, and the piece
/// behind it, its labels raised by so much.
fn put_called(
    guards: &Guards,
    out: &mut Vec<Instr>,
    label: u32,
    by: u32,
    number: u32,
    call: NumberedCall<'_>,
) -> Result<(), AllocError>
    requires { Raisable 0 by (code call.behind.now) }
    ensures { OnOk result (Puts out.old.items out.new.items (λ c. slots_got call.entry.slots.now
        (plain (call_to (callee_of call.entry.target)) (noted (indices guards.now) label number
        (set_to call.entry.to (followed_by (raised 0 by (code call.entry.behind.now)) c)))))) }
{
    put_slots(out, call.slots)?;
    put_target(out, call.target)?;
    put_noted(
        out,
        guards.first_unnoted,
        guards.state,
        guards.index,
        number,
        label,
    )?;
    put_to(out, call.to)?;
    put_raised(guards.alloc, out, by, call.behind)?;
    Ok(())
}

/// Puts a numbered call with this exit, with the piece in front of it and that behind it. It has a block of its own where runs go to the
/// end of that; else what ends its sequence comes next. Where it is the first of a function, the first test of the state has the lead.
#[inline(never)]
pub(crate) fn put_call(
    guards: &Guards,
    out: &mut Vec<Instr>,
    lead: Option<Vec<Instr>>,
    spot: Spot,
    piece: &[Instr],
    call: NumberedCall<'_>,
) -> Result<(), AllocError>
    requires depth { spot.depth < 2 ^ 31 }
    requires label { LabelBelow (2 ^ 31) (exit_of spot.exit) }
    requires piece { Raisable 0 2 (code piece.now) }
    requires behind { Raisable 0 2 (code call.behind.now) }
    ensures { OnOk result ((next : Code) → (own_block (exit_of spot.exit) false ≡ false → next ≡ ending (exit_of spot.exit))
        → onto out.new.items next ≡ onto out.old.items (call_begun (indices guards.now) (lead_of lead) (exit_of spot.exit) false spot.number (code piece.now)
        (λ own. call_guarded (indices guards.now) (exit_of spot.exit) own spot.depth spot.number call.entry.slots.now (callee_of call.entry.target) call.entry.to
        (code call.entry.behind.now)) next)) }
{
    match spot.exit {
        ExitTo::End => {
            let search = Search {
                label: 1,
                by: 2,
                number: spot.number,
            };
            let mut body = Vec::new(guards.alloc);
            put_search(guards, &mut body, lead, search, piece)?;
            put_called(guards, &mut body, spot.depth + 1, 1, spot.number, call)?;
            out.push(Instr::Block { result: None, body })?;
            Ok(())
        }
        ExitTo::Label(label) => {
            let search = Search {
                label: label + 1,
                by: 1,
                number: spot.number,
            };
            put_search(guards, out, lead, search, piece)?;
            put_called(guards, out, spot.depth, 0, spot.number, call)?;
            Ok(())
        }
        _ => {
            put_begun(guards, out, lead, piece)?;
            put_called(guards, out, spot.depth, 0, spot.number, call)?;
            Ok(())
        }
    }
}
