//! A body in pieces and units, as data.

ghost use Rattle.std.specs.Prelude.{◌≡◌, [], IfOk};
ghost use Rattle.wa_types.specs.View.{code};
ghost use Rattle.run_theory.specs.Flat.{result_got};
ghost use Rattle.guard_form.specs.Guarded.{block_unit};
ghost use Rattle.flow_rewrite.specs.UnitView.{units_of};

use std::alloc::{AllocError, Global};
use wa_model::Operand;
use wa_types::Instr;

/// What a numbered call goes to: a function, or by the table one of a type.
#[derive(Clone, Copy)]
pub enum Target {
    Direct(u32),
    Indirect(u32),
}

/// A numbered call, or a construct that holds one, with the piece behind it. `first` is the piece in front of the
/// units of a body.
#[derive(Drop)]
pub enum Unit {
    /// A `local.get` of each of `slots`, the call, then `local.set` of `to` where told.
    Call {
        slots: Vec<u32>,
        target: Target,
        to: Option<u32>,
        behind: Vec<Instr>,
    },
    Block {
        first: Vec<Instr>,
        body: Vec<Unit>,
        behind: Vec<Instr>,
    },
    Loop {
        first: Vec<Instr>,
        body: Vec<Unit>,
        behind: Vec<Instr>,
    },
    /// The operand, where the piece in front doesn't leave it on the operand stack, then an `if` without a result. An arm without
    /// units is its piece alone.
    If {
        cond: Option<Operand>,
        then_first: Vec<Instr>,
        then_units: Vec<Unit>,
        else_first: Vec<Instr>,
        else_units: Vec<Unit>,
        behind: Vec<Instr>,
    },
}

/// A body in pieces and units.
#[derive(Drop)]
pub struct Pieces {
    pub first: Vec<Instr>,
    pub units: Vec<Unit>,
}

/// What gets a local, where one is told.
fn got_result(alloc: Global, from: Option<u32>) -> Result<Vec<Instr>, AllocError>
    ensures { IfOk result (λ v. code v.items ≡ result_got from) }
{
    let mut out = Vec::new(alloc);
    match from {
        None => Ok(out),
        Some(x) => {
            out.push(Instr::LocalGet(x))?;
            Ok(out)
        }
    }
}

/// The pieces and units in a block of their own, the only unit, and behind it what gets the result from this local.
pub fn in_own_block(alloc: Global, pieces: Pieces, from: Option<u32>) -> Result<Pieces, AllocError>
    ensures first { IfOk result (λ p. p.first.items ≡ []) }
    ensures units { IfOk result (λ p. units_of p.units.items ≡ block_unit (code pieces.first.items) (units_of pieces.units.items) from) }
{
    let Pieces { first, units } = pieces;
    let behind = got_result(alloc, from)?;
    let block = Unit::Block {
        first,
        body: units,
        behind,
    };
    let mut outer = Vec::new(alloc);
    outer.push(block)?;
    Ok(Pieces {
        first: Vec::new(alloc),
        units: outer,
    })
}
