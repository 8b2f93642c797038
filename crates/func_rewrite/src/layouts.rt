//! The frames of calls, from the sets of locals that they keep.

ghost use Rattle.std.specs.Prelude.{◌≡◌, ◌≤◌, ◌<◌, ◌^◌, ◌++◌, ◌∷◌, [], All, length, map, Vec, Bool, IfOk, OnOk, if◌then◌else◌};
ghost use Rattle.std.specs.declared.alloc.Global.{Global as AGlobal};
ghost use Rattle.wa_types.specs.Frames.{named_places};
ghost use Rattle.local_spill.specs.Laying.{saved_local};
ghost use Rattle.live_locals.specs.LiveAt.{lists_of};
ghost use Rattle.live_locals.specs.Sets.{has};
ghost use Rattle.func_rewrite.specs.Layouts.{SetFrames};

use local_spill::{Layout, Place, layout};
use std::alloc::{AllocError, Global};
use wa_types::ValType;

/// Puts a place, where told.
fn put_place(out: &mut Vec<Place>, place: Place, told: bool) -> Result<(), AllocError>
    ensures { OnOk result (out.new.items ≡ out.old.items ++ (if told then place ∷ [] else [])) }
{
    if told {
        out.push(place)?;
    }
    Ok(())
}

/// The locals that a set has, in order.
fn set_places(alloc: Global, set: &[bool], locals: &[ValType]) -> Result<Vec<Place>, AllocError>
    requires size { length set.now ≡ length locals.now }
    requires few { length locals.now ≤ 50000 }
    ensures { IfOk result (λ v. map saved_local v.items ≡ named_places (has set.now) 0 locals.now) }
{
    let mut places = Vec::new(alloc);
    for local in 0..set.len() {
        let place = Place {
            local: local as u32,
            ty: locals[local],
            offset: 0,
        };
        put_place(&mut places, place, set[local])?;
    }
    Ok(places)
}

/// The frames of calls that keep these sets of locals, in order.
pub(crate) fn set_layouts(
    alloc: Global,
    sets: &[Vec<bool>],
    locals: &[ValType],
) -> Result<Vec<Layout>, AllocError>
    requires sizes { All (λ (set : Vec Bool AGlobal). length set.items ≡ length locals.now) sets.now }
    requires few { length locals.now ≤ 50000 }
    requires calls { length sets.now < 2 ^ 32 }
    ensures { IfOk result (λ v. SetFrames locals.now 0 (lists_of sets.now) v.items) }
{
    let mut layouts = Vec::new(alloc);
    for index in 0..sets.len() {
        let saved = set_places(alloc, &sets[index], locals)?;
        layouts.push(layout(alloc, index as u32, &saved)?)?;
    }
    Ok(layouts)
}
