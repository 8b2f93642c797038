//! The numbered calls of a flat function, and what their frames keep.

ghost use Rattle.std.specs.Prelude.{◌≡◌, IfOk};
ghost use Rattle.wa_types.specs.Pausing.{Listed};
ghost use Rattle.wa_types.specs.Sizes.{StrictSizeRule};
ghost use Rattle.wa_types.specs.Validity.{Valid as IsValid};
ghost use Rattle.wa_types.specs.View.{func_of, module_of};
ghost use Rattle.call_graph.specs.Settings.{settings_of};
ghost use Rattle.func_rewrite.specs.Frames.{IsFlattened};
ghost use Rattle.func_rewrite.specs.Calls.{AreLiveCalls};

use crate::pass::Pass;
use call_frames::Calls;
use flatten::Flattened;
use live_locals::{live_rows, number_calls};
use std::alloc::{AllocError, Global};
use wa_types::Func;

/// The places of the numbered calls, and for each local those whose frames keep it.
#[derive(Drop)]
pub(crate) struct LiveCalls {
    pub(crate) numbers: Vec<u32>,
    pub(crate) rows: Vec<Calls>,
}

/// The numbered calls of a function.
pub(crate) fn live_calls(
    alloc: Global,
    pass: &Pass<'_>,
    _source: &Func,
    flat: &Flattened,
) -> Result<LiveCalls, AllocError>
    requires valid { IsValid (module_of pass.now.valid.now) }
    requires sizes { StrictSizeRule (module_of pass.now.valid.now) }
    requires listed { pass.now.listed.now ≡ Listed (module_of pass.now.valid.now) (settings_of pass.now.settings.now) }
    requires flat { IsFlattened (module_of pass.now.valid.now) (func_of _source.now) flat.now }
    ensures { IfOk result (λ v. AreLiveCalls (module_of pass.now.valid.now) (settings_of pass.now.settings.now) pass.now.which.now (func_of _source.now) flat.now v) }
{
    let numbers = number_calls(
        alloc,
        &flat.func,
        pass.which,
        pass.listed,
        pass.settings.ignore_indirect,
    )?;
    let rows = live_rows(alloc, &flat.func, &numbers)?;
    Ok(LiveCalls { numbers, rows })
}
