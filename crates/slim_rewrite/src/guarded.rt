//! Guarded code of a flat function with slim pieces.

ghost use Rattle.std.specs.Prelude.{◌<◌, ◌^◌, IfOk};
ghost use Rattle.wa_types.specs.View.{code};
ghost use Rattle.run_theory.specs.FlatFits.{FlatFits};
ghost use Rattle.run_theory.specs.FlatView.{flat_func_of};
ghost use Rattle.guard_form.specs.Pieces.{call_total};
ghost use Rattle.flow_rewrite.specs.Emitting.{Rises};
ghost use Rattle.slim_rewrite.specs.Told.{GuardedTold};

use crate::function::pieces_of;
use flow_rewrite::{Guards, guarded_pieces, in_own_block, leaves_first};
use std::alloc::{AllocError, Global};
use wa_model::FlatFunc;
use wa_types::Instr;

/// The locals of a flat function that are slots: so many from this one on.
#[derive(Clone, Copy)]
pub struct Slots {
    pub low: u32,
    pub count: usize,
}

/// The guarded code of a flat function, of slim pieces with its units in a block of their own, under tests of this global, the state. The
/// calls at these places are numbered. The first test of the state restores the frame by these instructions. In state 0 the code returns,
/// else it is left by the label of the block that it stands in. The function's statements are dropped as soon as they stand in pieces.
pub fn guard_slim(
    alloc: Global,
    func: &mut FlatFunc,
    numbers: &[u32],
    state: u32,
    slots: Slots,
    restoring: Vec<Instr>,
) -> Result<Vec<Instr>, AllocError>
    requires fits { FlatFits (flat_func_of func.old) }
    requires rises { Rises numbers.now }
    requires few { call_total (flat_func_of func.old).body < 2 ^ 32 }
    ensures { IfOk result (λ v. GuardedTold numbers.now slots.low slots.count state (flat_func_of func.old) (code restoring.items) (code v.items)) }
{
    let pieces = pieces_of(alloc, func, numbers, slots.low, slots.count)?;
    let index = func.locals.len() as u32;
    func.body = Vec::new(alloc);
    let whole = in_own_block(alloc, pieces, func.result)?;
    let guards = Guards {
        alloc,
        state,
        index,
        first_unnoted: leaves_first(&whole),
    };
    guarded_pieces(&guards, restoring, &whole)
}
