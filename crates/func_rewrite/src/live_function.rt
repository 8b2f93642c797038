//! A function as it is written under the policy `live`, and the frames of its numbered calls.

ghost use Rattle.std.specs.Prelude.{◌≡◌, ◌≤◌, ◌<◌, ◌^◌, ℕ, length, IfOk};
ghost use Rattle.wa_types.specs.Pausing.{Listed, save_live};
ghost use Rattle.wa_types.specs.Sizes.{StrictSizeRule};
ghost use Rattle.wa_types.specs.Syntax.{Func as PlainFunc, Module as PlainModule, done};
ghost use Rattle.wa_types.specs.Validity.{Valid as IsValid};
ghost use Rattle.wa_types.specs.View.{code, func_of, module_of};
ghost use Rattle.run_theory.specs.FlatFits.{FlatFits};
ghost use Rattle.run_theory.specs.FlatView.{flat_func_of};
ghost use Rattle.call_graph.specs.Settings.{settings_of};
ghost use Rattle.local_spill.specs.Ids.{ids_behind};
ghost use Rattle.call_frames.specs.FrameParts.{restoring_by_call, saving_by_call};
ghost use Rattle.call_frames.specs.PlainFrames.{frames_of};
ghost use Rattle.flow_rewrite.specs.Emitting.{Rises};
ghost use Rattle.func_rewrite.specs.Bodies.{IsSlimBody};
ghost use Rattle.func_rewrite.specs.Frames.{FramesUnder, IsFlattened};
ghost use Rattle.guard_form.specs.Pieces.{call_total};
ghost use Rattle.emitted_form.specs.EmittedAs.{IsLiveWritten};
ghost use Rattle.call_frames.specs.Classes.{FewParts};
ghost use Rattle.call_frames.specs.Views.{parts_view, told_frames};
ghost use Rattle.func_rewrite.specs.Calls.{AreLiveCalls};

use crate::body::body_around;
use crate::calls::{LiveCalls, live_calls};
use crate::layouts::set_layouts;
use crate::locals::written_locals;
use crate::pass::Pass;
use call_frames::{FrameParts, saved_parts, sets_from};
use flatten::Flattened;
use live_frames::{restoring, saving};
use local_spill::{Layout, RuntimeIds};
use std::alloc::{AllocError, Global};
use wa_types::{Func, Instr};

/// The body of the written function, whose numbered calls have these places and whose frames have these parts.
fn live_body(
    alloc: Global,
    flat: &mut Flattened,
    numbers: &[u32],
    parts: &FrameParts,
    ids: &RuntimeIds,
) -> Result<Vec<Instr>, AllocError>
    requires fits { FlatFits (flat_func_of flat.old.func) }
    requires rises { Rises numbers.now }
    requires few { call_total (flat_func_of flat.old.func).body < 2 ^ 32 }
    requires slots { flat.old.first_slot ≤ flat.old.first_result }
    requires parts { FewParts (parts_view parts.now) }
    ensures { IfOk result (λ v. (m : PlainModule) (f : PlainFunc) (count : ℕ) → IsFlattened m f flat.old
        → IsSlimBody m numbers.now ids.now.state flat.old.func.func f (restoring_by_call (frames_of (told_frames count (length flat.old.func.locals.items) ids.now.address parts.now)) done)
        (saving_by_call (frames_of (told_frames count (length flat.old.func.locals.items) ids.now.address parts.now)) done) (code v.items)) }
{
    let base = flat.func.locals.len() as u32;
    let restored = restoring(alloc, parts, base, ids.address)?;
    let saved = saving(alloc, parts, base, ids.address)?;
    body_around(alloc, flat, numbers, restored, saved, ids.state)
}

/// The function as it is written, whose numbered calls keep these locals. The flat function loses its statements.
fn live_func(
    alloc: Global,
    pass: &Pass<'_>,
    source: &Func,
    flat: &mut Flattened,
    calls: &LiveCalls,
) -> Result<Func, AllocError>
    requires valid { IsValid (module_of pass.now.valid.now) }
    requires sizes { StrictSizeRule (module_of pass.now.valid.now) }
    requires ids { pass.now.ids.now ≡ ids_behind (module_of pass.now.valid.now) }
    requires flat { IsFlattened (module_of pass.now.valid.now) (func_of source.now) flat.old }
    requires calls { AreLiveCalls (module_of pass.now.valid.now) (settings_of pass.now.settings.now) pass.now.which.now (func_of source.now) flat.old calls.now }
    ensures { IfOk result (λ f. IsLiveWritten (module_of pass.now.valid.now) (settings_of pass.now.settings.now) pass.now.which.now flat.old.func.func (func_of source.now) (func_of f)) }
{
    let count = calls.numbers.len();
    let parts = saved_parts(alloc, &calls.rows, count, &flat.func.locals)?;
    let locals = written_locals(alloc, &source.locals, &flat.func.locals, flat.first_slot)?;
    let body = live_body(alloc, flat, &calls.numbers, &parts, pass.ids)?;
    Ok(Func {
        sort: source.sort,
        locals,
        body,
    })
}

/// The frames of numbered calls that keep these locals, in order.
fn live_layouts(
    alloc: Global,
    pass: &Pass<'_>,
    _source: &Func,
    flat: &Flattened,
    calls: &LiveCalls,
) -> Result<Vec<Layout>, AllocError>
    requires valid { IsValid (module_of pass.now.valid.now) }
    requires sizes { StrictSizeRule (module_of pass.now.valid.now) }
    requires flat { IsFlattened (module_of pass.now.valid.now) (func_of _source.now) flat.now }
    requires calls { AreLiveCalls (module_of pass.now.valid.now) (settings_of pass.now.settings.now) pass.now.which.now (func_of _source.now) flat.now calls.now }
    ensures { IfOk result (λ ls. FramesUnder save_live (module_of pass.now.valid.now) (settings_of pass.now.settings.now) pass.now.which.now (func_of _source.now) ls.items) }
{
    let sets = sets_from(alloc, &calls.rows, calls.numbers.len())?;
    let layouts = set_layouts(alloc, &sets, &flat.func.locals)?;
    Ok(layouts)
}

/// The function as it is written under the policy `live`; the flat function loses its statements.
pub fn write_live_func(
    alloc: Global,
    pass: &Pass<'_>,
    source: &Func,
    flat: &mut Flattened,
) -> Result<Func, AllocError>
    requires valid { IsValid (module_of pass.now.valid.now) }
    requires sizes { StrictSizeRule (module_of pass.now.valid.now) }
    requires listed { pass.now.listed.now ≡ Listed (module_of pass.now.valid.now) (settings_of pass.now.settings.now) }
    requires ids { pass.now.ids.now ≡ ids_behind (module_of pass.now.valid.now) }
    requires flat { IsFlattened (module_of pass.now.valid.now) (func_of source.now) flat.old }
    ensures { IfOk result (λ f. IsLiveWritten (module_of pass.now.valid.now) (settings_of pass.now.settings.now) pass.now.which.now flat.old.func.func (func_of source.now) (func_of f)) }
{
    let calls = live_calls(alloc, pass, source, flat)?;
    live_func(alloc, pass, source, flat, &calls)
}

/// The frames of its numbered calls, in order.
pub fn live_func_frames(
    alloc: Global,
    pass: &Pass<'_>,
    source: &Func,
    flat: &Flattened,
) -> Result<Vec<Layout>, AllocError>
    requires valid { IsValid (module_of pass.now.valid.now) }
    requires sizes { StrictSizeRule (module_of pass.now.valid.now) }
    requires listed { pass.now.listed.now ≡ Listed (module_of pass.now.valid.now) (settings_of pass.now.settings.now) }
    requires flat { IsFlattened (module_of pass.now.valid.now) (func_of source.now) flat.now }
    ensures { IfOk result (λ ls. FramesUnder save_live (module_of pass.now.valid.now) (settings_of pass.now.settings.now) pass.now.which.now (func_of source.now) ls.items) }
{
    let calls = live_calls(alloc, pass, source, flat)?;
    live_layouts(alloc, pass, source, flat, &calls)
}
