//! A sequence of statements in pieces and units, as far as the walk has gone.

ghost use Rattle.std.specs.Prelude.{◌≡◌, Ok, None, true, IfOk, OnOk};
ghost use Rattle.wa_types.specs.Syntax.{Code};
ghost use Rattle.wa_types.specs.View.{code};
ghost use Rattle.guard_form.specs.Pieces.{no_unit, Units};
ghost use Rattle.slim_rewrite.specs.Walking.{Good};
ghost use Rattle.flow_rewrite.specs.UnitView.{unit_in_front, units_of};
ghost use Rattle.slim_rewrite.specs.SequenceView.{first_where, head_in_front, open_where, units_onto};
ghost use Rattle.slim_rewrite.specs.Inside.{Begun, Completed, Finished};
ghost use Rattle.slim_rewrite.specs.Steps.{Opened};

use crate::stack::{Walk, flush};
use flow_rewrite::{Pieces, Target, Unit};
use std::alloc::{AllocError, Global};
use std::mem;
use wa_model::Operand;
use wa_types::Instr;

/// A unit without the piece behind it.
#[derive(Drop)]
pub enum Head {
    Call {
        slots: Vec<u32>,
        target: Target,
        to: Option<u32>,
    },
    Block(Pieces),
    Loop(Pieces),
    /// No condition is told that the piece in front has left on the operand stack.
    If {
        cond: Option<Operand>,
        then_arm: Pieces,
        else_arm: Pieces,
    },
}

/// A sequence so far: its first piece, where a unit is open, the units in front of that, and the place of the next call.
#[derive(Drop)]
pub struct Sequence {
    pub first: Vec<Instr>,
    pub units: Vec<Unit>,
    pub open: Option<Head>,
    pub place: u32,
    /// Whether a jump was put, behind which nothing may stand.
    pub ended: bool,
}

/// A whole sequence, the place of the first call behind it, and whether it ends in a jump.
#[derive(Drop)]
pub struct Written {
    pub pieces: Pieces,
    pub place: u32,
    pub ended: bool,
}

/// A sequence of which nothing is written, whose first call has this place. It is kept apart from the stack, since a walk stands in one at
/// each level of nesting.
#[inline(never)]
pub fn begin(alloc: Global, place: u32) -> Result<Box<Sequence>, AllocError>
    ensures { IfOk result (λ all. Begun place all.value) }
{
    let all = Sequence {
        first: Vec::new(alloc),
        units: Vec::new(alloc),
        open: None,
        place,
        ended: false,
    };
    Ok(Box::new(alloc, all)?)
}

/// Whether a statement was put.
pub fn goes_on(put: &Result<bool, AllocError>) -> bool
    ensures { result ≡ true → put.now ≡ Ok true }
{
    match put {
        Ok(put) => *put,
        Err(_) => false,
    }
}

/// Drops a sequence whose next statement wasn't put. The walk leaves that to a call of its own, since it goes as deep as code nests.
#[inline(never)]
pub fn give_up(
    _all: Box<Sequence>,
    put: Result<bool, AllocError>,
) -> Result<Option<Box<Written>>, AllocError>
    ensures { IfOk result (λ o. o ≡ None) }
{
    put?;
    Ok(None)
}

/// The unit with its piece.
fn closed(head: Head, behind: Vec<Instr>) -> Unit
    ensures { (rest : Units) → unit_in_front result rest ≡ head_in_front head (code behind.items) rest }
{
    match head {
        Head::Call { slots, target, to } => Unit::Call {
            slots,
            target,
            to,
            behind,
        },
        Head::Block(inner) => Unit::Block {
            first: inner.first,
            body: inner.units,
            behind,
        },
        Head::Loop(inner) => Unit::Loop {
            first: inner.first,
            body: inner.units,
            behind,
        },
        Head::If {
            cond,
            then_arm,
            else_arm,
        } => Unit::If {
            cond,
            then_first: then_arm.first,
            then_units: then_arm.units,
            else_first: else_arm.first,
            else_units: else_arm.units,
            behind,
        },
    }
}

/// Closes the open unit with the piece so far, and opens another.
pub(crate) fn open_unit(at: &mut Walk, all: &mut Sequence, head: Head) -> Result<(), AllocError>
    requires { Good at.old }
    ensures { OnOk result (Opened at.old all.old at.new all.new head) }
{
    let piece = mem::replace(&mut at.piece, Vec::new(at.alloc));
    match mem::replace(&mut all.open, Some(head)) {
        None => {
            all.first = piece;
            Ok(())
        }
        Some(open) => {
            all.units.push(closed(open, piece))?;
            Ok(())
        }
    }
}

/// A first piece and units, with the last piece.
fn joined(
    first: Vec<Instr>,
    units: Vec<Unit>,
    last: Option<Head>,
    piece: Vec<Instr>,
) -> Result<Pieces, AllocError>
    ensures first { IfOk result (λ p. code p.first.items ≡ first_where last (code first.items) (code piece.items)) }
    ensures units { IfOk result (λ p. units_of p.units.items ≡ units_onto units.items (open_where last (code piece.items) no_unit)) }
{
    match last {
        None => Ok(Pieces {
            first: piece,
            units,
        }),
        Some(head) => {
            let mut units = units;
            units.push(closed(head, piece))?;
            Ok(Pieces { first, units })
        }
    }
}

/// A sequence with its last piece.
fn completed(at: &mut Walk, all: Sequence) -> Result<Written, AllocError>
    requires { Good at.old }
    ensures { IfOk result (λ w. Completed at.old all at.new w) }
{
    let piece = mem::replace(&mut at.piece, Vec::new(at.alloc));
    let place = all.place;
    let ended = all.ended;
    let pieces = joined(all.first, all.units, all.open, piece)?;
    Ok(Written {
        pieces,
        place,
        ended,
    })
}

/// Ends a sequence that is kept apart, and so keeps what is written.
#[inline(never)]
pub fn finish_apart(at: &mut Walk, all: Box<Sequence>) -> Result<Box<Written>, AllocError>
    requires { Good at.old }
    ensures { IfOk result (λ w. Finished at.old all.value at.new w.value) }
{
    let alloc = at.alloc;
    let written = finish(at, Box::into_inner(all))?;
    Ok(Box::new(alloc, written)?)
}

/// Ends a sequence. All slots are set where its end is reached.
fn finish(at: &mut Walk, all: Sequence) -> Result<Written, AllocError>
    requires { Good at.old }
    ensures { IfOk result (λ w. Finished at.old all at.new w) }
{
    if all.ended {
        return completed(at, all);
    }
    flush(at)?;
    completed(at, all)
}
