//! The codes that save and that restore the frames of a function.

ghost use Rattle.std.specs.Prelude.{◌≡◌, ◌≤◌, ◌+◌, ℕ, IfOk};
ghost use Rattle.wa_types.specs.Syntax.{Code};
ghost use Rattle.wa_types.specs.View.{onto};
ghost use Rattle.call_frames.specs.FrameParts.{restoring_by_call, saving_by_call};
ghost use Rattle.call_frames.specs.PlainFrames.{frames_of};
ghost use Rattle.call_frames.specs.Classes.{FewParts};
ghost use Rattle.call_frames.specs.Views.{parts_view, told_frames};

use crate::fields::shared_of;
use crate::loading::put_parts_loaded;
use crate::locating::{put_index_loaded, put_location_lowered, put_location_noted, put_room_test};
use crate::sizing::put_size;
use crate::storing::put_parts_stored;
use call_frames::FrameParts;
use local_spill::{Place, put_location_raised, put_stored};
use std::alloc::{AllocError, Global};
use wa_types::{Instr, ValType};

/// The code that saves the frame of the call that the index tells, at the location, which is raised to the frame's end. A frame that
/// doesn't fit traps before anything is written. The call index is local `base`, and the scratch local stands behind it.
pub fn saving(
    alloc: Global,
    parts: &FrameParts,
    base: u32,
    address: u32,
) -> Result<Vec<Instr>, AllocError>
    requires few { FewParts (parts_view parts.now) }
    requires base { base ≤ 50000 }
    ensures { IfOk result (λ v. (count : ℕ) (rest : Code) → onto v.items rest ≡ saving_by_call (frames_of (told_frames count base address parts.now)) rest) }
{
    let mut out = Vec::new(alloc);
    let scratch = base + 1;
    let shared = shared_of(&parts.parts);
    put_size(alloc, &mut out, base, shared + 4, &parts.parts)?;
    put_room_test(alloc, &mut out, address, scratch)?;
    put_parts_stored(alloc, &mut out, base, scratch, &parts.parts)?;
    let index = Place {
        local: base,
        ty: ValType::I32,
        offset: shared,
    };
    put_stored(&mut out, scratch, index)?;
    put_location_raised(&mut out, address, scratch, shared + 4)?;
    Ok(out)
}

/// The code that restores the frame below the location, which is lowered to where the frame begins: first the call index, and by it
/// the locals that its call keeps.
pub fn restoring(
    alloc: Global,
    parts: &FrameParts,
    base: u32,
    address: u32,
) -> Result<Vec<Instr>, AllocError>
    requires few { FewParts (parts_view parts.now) }
    requires base { base ≤ 50000 }
    ensures { IfOk result (λ v. (count : ℕ) (rest : Code) → onto v.items rest ≡ restoring_by_call (frames_of (told_frames count base address parts.now)) rest) }
{
    let mut out = Vec::new(alloc);
    let scratch = base + 1;
    let shared = shared_of(&parts.parts);
    put_location_noted(&mut out, address, scratch, shared + 4)?;
    put_index_loaded(&mut out, base, shared)?;
    put_parts_loaded(alloc, &mut out, base, scratch, shared, &parts.parts)?;
    put_location_lowered(&mut out, address, scratch)?;
    Ok(out)
}
