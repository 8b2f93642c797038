//! A whole function.

ghost use Rattle.std.specs.Prelude.{◌<◌, ◌^◌, IfOk};
ghost use Rattle.run_theory.specs.FlatFits.{FlatFits};
ghost use Rattle.run_theory.specs.FlatView.{flat_func_of};
ghost use Rattle.guard_form.specs.Pieces.{call_total};
ghost use Rattle.flow_rewrite.specs.Emitting.{Rises};
ghost use Rattle.slim_rewrite.specs.Functions.{ArePlain, SlimOrPlain};

use crate::gathering::gather_sequence;
use crate::guesses::heights_apart;
use crate::stack::Walk;
use crate::walk::write_sequence;
use flow_rewrite::Pieces;
use std::alloc::{AllocError, Global};
use wa_model::FlatFunc;

/// A flat function in pieces and units as its statements are, where the calls at these places are numbered.
pub(crate) fn plain_pieces(
    alloc: Global,
    func: &FlatFunc,
    numbers: &[u32],
) -> Result<Pieces, AllocError>
    requires fits { FlatFits (flat_func_of func.now) }
    requires rises { Rises numbers.now }
    requires few { call_total (flat_func_of func.now).body < 2 ^ 32 }
    ensures { IfOk result (λ p. ArePlain numbers.now (flat_func_of func.now) p) }
{
    let mut at = Walk {
        alloc,
        low: 0,
        places: Vec::new(alloc),
        stack: Vec::new(alloc),
        set: 0,
        floor: 0,
        apart: Vec::new(alloc),
        piece: Vec::new(alloc),
    };
    let written = gather_sequence(numbers, &mut at, &func.body, 0)?;
    Ok(Box::into_inner(written).pieces)
}

/// A flat function in pieces and units with slim pieces, where the calls at these places are numbered and so many locals
/// from `low` on are slots; with its plain pieces where its statements don't use slots as a stack. Takes time linear in the
/// function, but for the search of each call's place.
pub fn pieces_of(
    alloc: Global,
    func: &FlatFunc,
    numbers: &[u32],
    low: u32,
    slots: usize,
) -> Result<Pieces, AllocError>
    requires fits { FlatFits (flat_func_of func.now) }
    requires rises { Rises numbers.now }
    requires few { call_total (flat_func_of func.now).body < 2 ^ 32 }
    ensures { IfOk result (λ p. SlimOrPlain numbers.now low slots (flat_func_of func.now) p) }
{
    let mut at = Walk {
        alloc,
        low,
        places: vec![in alloc; 0; slots]?,
        stack: Vec::new(alloc),
        set: 0,
        floor: 0,
        apart: heights_apart(alloc, func, low, slots)?,
        piece: Vec::new(alloc),
    };
    let Some(written) = write_sequence(numbers, &mut at, &func.body, 0, None)? else {
        return plain_pieces(alloc, func, numbers);
    };
    Ok(Box::into_inner(written).pieces)
}
