//! A function as it is written by the policy of the settings, and the frames of its numbered calls.

ghost use Rattle.std.specs.Prelude.{◌≡◌, IfOk};
ghost use Rattle.wa_types.specs.Pausing.{Listed};
ghost use Rattle.wa_types.specs.Sizes.{StrictSizeRule};
ghost use Rattle.wa_types.specs.Validity.{Valid as IsValid};
ghost use Rattle.wa_types.specs.View.{func_of, module_of};
ghost use Rattle.call_graph.specs.Settings.{settings_of};
ghost use Rattle.local_spill.specs.Ids.{ids_behind};
ghost use Rattle.func_rewrite.specs.Frames.{FramesOf, IsFlattened};
ghost use Rattle.emitted_form.specs.EmittedAs.{IsWritten};

use crate::function::{func_frames, write_func};
use crate::live_function::{live_func_frames, write_live_func};
use crate::pass::Pass;
use call_graph::Policy;
use flatten::Flattened;
use local_spill::Layout;
use std::alloc::{AllocError, Global};
use wa_types::Func;

/// The function as it is written; the flat function loses its statements.
pub fn write_by_policy(
    alloc: Global,
    pass: &Pass<'_>,
    source: &Func,
    flat: &mut Flattened,
) -> Result<Func, AllocError>
    requires valid { IsValid (module_of pass.now.valid.now) }
    requires sizes { StrictSizeRule (module_of pass.now.valid.now) }
    requires listed { pass.now.listed.now ≡ Listed (module_of pass.now.valid.now) (settings_of pass.now.settings.now) }
    requires ids { pass.now.ids.now ≡ ids_behind (module_of pass.now.valid.now) }
    requires flat { IsFlattened (module_of pass.now.valid.now) (func_of source.now) flat.old }
    ensures { IfOk result (λ f. IsWritten (module_of pass.now.valid.now) (settings_of pass.now.settings.now) pass.now.which.now flat.old.func.func (func_of source.now) (func_of f)) }
{
    match pass.settings.policy {
        Policy::All => write_func(alloc, pass, source, flat),
        Policy::Live => write_live_func(alloc, pass, source, flat),
    }
}

/// The frames of the function's numbered calls, in order.
pub fn frames_by_policy(
    alloc: Global,
    pass: &Pass<'_>,
    source: &Func,
    flat: &Flattened,
) -> Result<Vec<Layout>, AllocError>
    requires valid { IsValid (module_of pass.now.valid.now) }
    requires sizes { StrictSizeRule (module_of pass.now.valid.now) }
    requires listed { pass.now.listed.now ≡ Listed (module_of pass.now.valid.now) (settings_of pass.now.settings.now) }
    requires flat { IsFlattened (module_of pass.now.valid.now) (func_of source.now) flat.now }
    ensures { IfOk result (λ ls. FramesOf (module_of pass.now.valid.now) (settings_of pass.now.settings.now) pass.now.which.now (func_of source.now) ls.items) }
{
    match pass.settings.policy {
        Policy::All => func_frames(alloc, pass, source, flat),
        Policy::Live => live_func_frames(alloc, pass, source, flat),
    }
}
