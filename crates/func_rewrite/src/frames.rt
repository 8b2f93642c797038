//! The places of a frame, with gaps where locals aren't kept, and the frames of the numbered calls.

ghost use Rattle.std.specs.Prelude.{◌≡◌, ◌≤◌, ◌+◌, ◌^◌, ◌<◌, ℕ, length, get_or, filter, map, take, false, All, ◌++◌, ◌∷◌, [], IfOk, OnOk, if◌then◌else◌};
ghost use Rattle.local_spill.specs.Laying.{in_a_row, row_size, saved_local};
ghost use Rattle.local_spill.specs.declared.frames.Place.{Place as APlace};
ghost use Rattle.func_rewrite.specs.WrittenFrames.{numbered_places, AllFrames};

use local_spill::{Layout, Place, layout};
use std::alloc::{AllocError, Global};
use wa_types::ValType;

/// The locals that a frame saves: the first of a flat function's, up to its last slot.
pub fn saved_places(alloc: Global, locals: &[ValType], end: u32) -> Result<Vec<Place>, AllocError>
    requires { end ≤ length locals.now }
    ensures { IfOk result (λ v. map saved_local v.items ≡ numbered_places 0 (take end locals.now)) }
{
    let mut places = Vec::with_capacity(alloc, end as usize)?;
    for local in 0..end {
        places.push(Place {
            local,
            ty: locals[local as usize],
            offset: 0,
        })?;
    }
    Ok(places)
}

/// Puts a place, where told.
fn put_place(out: &mut Vec<Place>, place: Place, told: bool) -> Result<(), AllocError>
    ensures { OnOk result (out.new.items ≡ out.old.items ++ (if told then place ∷ [] else [])) }
{
    if told {
        out.push(place)?;
    }
    Ok(())
}

/// The frame without the places of locals that aren't kept. It keeps its size.
pub fn chosen_frame(alloc: Global, frame: Layout, kept: &[bool]) -> Result<Layout, AllocError>
    requires { All (λ (p : APlace). p.local < length kept.now) frame.places.items }
    ensures places { IfOk result (λ l. l.places.items ≡ filter (λ (p : APlace). get_or kept.now p.local false) frame.places.items) }
    ensures size { IfOk result (λ l. l.size ≡ frame.size) }
{
    let mut places = Vec::new(alloc);
    for place in &frame.places {
        put_place(&mut places, *place, kept[place.local as usize])?;
    }
    Ok(Layout {
        index: frame.index,
        size: frame.size,
        places,
    })
}

/// The frames of so many numbered calls, in order.
pub fn call_frames(alloc: Global, saved: &[Place], count: u32) -> Result<Vec<Layout>, AllocError>
    requires { length saved.now ≤ 50000 }
    ensures { IfOk result (λ v. AllFrames saved.now count v.items) }
{
    let mut frames = Vec::with_capacity(alloc, count as usize)?;
    for index in 0..count {
        frames.push(layout(alloc, index, saved)?)?;
    }
    Ok(frames)
}
