//! A function as it is written under the policy `all`, and the frames of its numbered calls.

ghost use Rattle.std.specs.Prelude.{◌≡◌, IfOk};
ghost use Rattle.wa_types.specs.Pausing.{Listed, save_all};
ghost use Rattle.wa_types.specs.Sizes.{StrictSizeRule};
ghost use Rattle.wa_types.specs.Validity.{Valid as IsValid};
ghost use Rattle.wa_types.specs.View.{func_of, module_of};
ghost use Rattle.call_graph.specs.Settings.{settings_of};
ghost use Rattle.local_spill.specs.Ids.{ids_behind};
ghost use Rattle.emitted_form.specs.Emitted.{IsAllWritten};
ghost use Rattle.func_rewrite.specs.Frames.{IsFlattened, FramesUnder};

use crate::body::written_body;
use crate::frames::{call_frames, chosen_frame, saved_places};
use crate::kept::kept_locals;
use crate::locals::written_locals;
use crate::pass::Pass;
use flatten::Flattened;
use flow_rewrite::number_calls;
use local_spill::{Layout, layout};
use std::alloc::{AllocError, Global};
use wa_types::Func;

/// The function as it is written under the policy `all`; the flat function loses its statements. Takes time and memory linear in it.
pub fn write_func(
    alloc: Global,
    pass: &Pass<'_>,
    source: &Func,
    flat: &mut Flattened,
) -> Result<Func, AllocError>
    requires valid { IsValid (module_of pass.now.valid.now) }
    requires sizes { StrictSizeRule (module_of pass.now.valid.now) }
    requires listed { pass.now.listed.now ≡ Listed (module_of pass.now.valid.now) (settings_of pass.now.settings.now) }
    requires ids { pass.now.ids.now ≡ ids_behind (module_of pass.now.valid.now) }
    requires flat { IsFlattened (module_of pass.now.valid.now) (func_of source.now) flat.old }
    ensures { IfOk result (λ f. IsAllWritten (module_of pass.now.valid.now) (settings_of pass.now.settings.now) pass.now.which.now flat.old.func.func (func_of source.now) (func_of f)) }
{
    let own = flat.first_slot;
    let numbers = number_calls(
        alloc,
        &flat.func,
        pass.which,
        pass.listed,
        pass.settings.ignore_indirect,
    )?;
    let kept = kept_locals(alloc, &flat.func, &numbers, own)?;
    let saved = saved_places(alloc, &flat.func.locals, flat.first_result)?;
    let frame = chosen_frame(alloc, layout(alloc, 0, &saved)?, &kept)?;
    let locals = written_locals(alloc, &source.locals, &flat.func.locals, own)?;
    let body = written_body(alloc, flat, &numbers, &frame, pass.ids)?;
    Ok(Func {
        sort: source.sort,
        locals,
        body,
    })
}

/// The frames of the function's numbered calls under the policy `all`, in order: each names all its saved locals.
pub fn func_frames(
    alloc: Global,
    pass: &Pass<'_>,
    _source: &Func,
    flat: &Flattened,
) -> Result<Vec<Layout>, AllocError>
    requires valid { IsValid (module_of pass.now.valid.now) }
    requires sizes { StrictSizeRule (module_of pass.now.valid.now) }
    requires listed { pass.now.listed.now ≡ Listed (module_of pass.now.valid.now) (settings_of pass.now.settings.now) }
    requires flat { IsFlattened (module_of pass.now.valid.now) (func_of _source.now) flat.now }
    ensures { IfOk result (λ ls. FramesUnder save_all (module_of pass.now.valid.now) (settings_of pass.now.settings.now) pass.now.which.now (func_of _source.now) ls.items) }
{
    let numbers = number_calls(
        alloc,
        &flat.func,
        pass.which,
        pass.listed,
        pass.settings.ignore_indirect,
    )?;
    let saved = saved_places(alloc, &flat.func.locals, flat.first_result)?;
    let frames = call_frames(alloc, &saved, numbers.len() as u32)?;
    Ok(frames)
}
