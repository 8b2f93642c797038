//! A whole function with guards, each operand in its local.

ghost use Rattle.std.specs.Prelude.{◌≡◌, ◌≤◌, ◌<◌, ◌^◌, ◌∷◌, [], ◌++◌, IfOk};
ghost use Rattle.wa_types.specs.declared.values.ValType.TheVariants.{I32, I64};
ghost use Rattle.wa_types.specs.View.{code};
ghost use Rattle.run_theory.specs.Flat.{code_of};
ghost use Rattle.run_theory.specs.FlatView.{flat_func_of};
ghost use Rattle.run_theory.specs.FlatFits.{FlatFits};
ghost use Rattle.guard_form.specs.Bounds.{reads, reads_bound};
ghost use Rattle.guard_form.specs.Guarded.{guarded_code};
ghost use Rattle.guard_form.specs.Pieces.{call_total};
ghost use Rattle.flow_rewrite.specs.Emitting.{Rises};

use crate::function::plain_pieces;
use flow_rewrite::{Guards, guarded_pieces, in_own_block};
use std::alloc::{AllocError, Global};
use wa_model::FlatFunc;
use wa_types::{Instr, ValType};

/// A flat function with guards: its index, that of its type, its flat locals and behind them the call index and a scratch local of each
/// type, the local of its result, and its code. The code stands behind what restores a frame, in a block: in state 0 it returns, else it is
/// left at the block's end, where what saves a frame stands.
#[derive(Drop)]
pub struct GuardedFunc {
    pub func: u32,
    pub sort: u32,
    pub locals: Vec<ValType>,
    pub result: Option<u32>,
    pub body: Vec<Instr>,
}

/// The flat locals, and behind them the call index and a scratch local of each type.
fn guarded_locals(alloc: Global, flat: &[ValType]) -> Result<Vec<ValType>, AllocError>
    ensures { IfOk result (λ v. v.items ≡ flat.now ++ I32 ∷ I32 ∷ I64 ∷ []) }
{
    let mut locals = Vec::from_slice(alloc, flat)?;
    locals.push(ValType::I32)?;
    locals.push(ValType::I32)?;
    locals.push(ValType::I64)?;
    Ok(locals)
}

/// The function with a test of this global, the state, before each piece, where the calls at these places are
/// numbered. The places rise, and there are fewer than 2^32 calls. Where the flat function doesn't read the global,
/// this one reads it at most 8 * (K + N + 1) times, K the numbered calls and N the constructs that hold one.
pub fn guard(
    alloc: Global,
    func: &FlatFunc,
    numbers: &[u32],
    state: u32,
) -> Result<GuardedFunc, AllocError>
    requires fits { FlatFits (flat_func_of func.now) }
    requires rises { Rises numbers.now }
    requires few { call_total (flat_func_of func.now).body < 2 ^ 32 }
    ensures body { IfOk result (λ g. code g.body.items ≡ guarded_code state numbers.now (flat_func_of func.now)) }
    ensures reads { IfOk result (λ g. reads state (code_of (flat_func_of func.now).body) ≡ 0 → reads state (code g.body.items) ≤ reads_bound numbers.now (flat_func_of func.now).body) }
    ensures locals { IfOk result (λ g. g.locals.items ≡ func.now.locals.items ++ I32 ∷ I32 ∷ I64 ∷ []) }
    ensures result { IfOk result (λ g. g.result ≡ func.now.result) }
    ensures func { IfOk result (λ g. g.func ≡ func.now.func) }
    ensures sort { IfOk result (λ g. g.sort ≡ func.now.sort) }
{
    let pieces = plain_pieces(alloc, func, numbers)?;
    let guards = Guards {
        alloc,
        state,
        index: func.locals.len() as u32,
        first_unnoted: false,
    };
    let whole = in_own_block(alloc, pieces, func.result)?;
    let body = guarded_pieces(&guards, Vec::new(alloc), &whole)?;
    Ok(GuardedFunc {
        func: func.func,
        sort: func.sort,
        locals: guarded_locals(alloc, &func.locals)?,
        result: func.result,
        body,
    })
}
