//! The codes that restore and that save a frame, by themselves and where the state isn't 0.

ghost use Rattle.std.specs.Prelude.{◌≡◌, ◌≤◌, ◌-◌, IfOk, OnOk, slice_get};
ghost use Rattle.wa_types.specs.Syntax.{Code};
ghost use Rattle.wa_types.specs.declared.values.ValType.TheVariants.{I32};
ghost use Rattle.wa_types.specs.View.{code, onto};
ghost use Rattle.local_spill.specs.Laying.{AreAlike};
ghost use Rattle.local_spill.specs.Putting.{Puts};
ghost use Rattle.local_spill.specs.Spilling.{epilogue_code, prologue_code, restoring, saving, spill_indices, unless_normal};

use crate::RuntimeIds;
use crate::frames::{Layout, Place};
use crate::location::{put_location_raised, put_location_taken};
use crate::putting::{put_all, put_loaded, put_locals_loaded, put_locals_stored, put_stored};
use crate::room::put_room_test;
use std::alloc::{AllocError, Global};
use wa_types::{Instr, ValType};

/// Where a frame keeps the call index: in its last four bytes.
fn index_place(layout: &Layout, base: u32) -> Place
    requires { 4 ≤ layout.now.size }
    ensures { result ≡ record { local = base; ty = I32; offset = layout.now.size - 4 } }
{
    Place {
        local: base,
        ty: ValType::I32,
        offset: layout.size - 4,
    }
}

/// What saves a frame of this layout, at the location, which is raised to the frame's end. A frame that doesn't fit traps before
/// anything is written. The call index is local `base`, and the local behind it is a scratch local.
pub fn saving(
    alloc: Global,
    layout: &Layout,
    base: u32,
    ids: &RuntimeIds,
) -> Result<Vec<Instr>, AllocError>
    requires size { 4 ≤ layout.now.size }
    requires base { base ≤ 50000 }
    ensures { IfOk result (λ v. (rest : Code) → onto v.items rest ≡ saving (spill_indices base ids.now) (layout.now.size - 4) layout.now.places.items rest) }
{
    let mut out = Vec::new(alloc);
    let scratch = base + 1;
    put_room_test(alloc, &mut out, ids.address, scratch, layout.size)?;
    put_locals_stored(&mut out, scratch, &layout.places)?;
    put_stored(&mut out, scratch, index_place(layout, base))?;
    put_location_raised(&mut out, ids.address, scratch, layout.size)?;
    Ok(out)
}

/// What restores a frame of this layout, from the location lowered by it. The call index is local `base`, and the local behind it
/// is a scratch local.
pub fn restoring(
    alloc: Global,
    layout: &Layout,
    base: u32,
    ids: &RuntimeIds,
) -> Result<Vec<Instr>, AllocError>
    requires size { 4 ≤ layout.now.size }
    requires base { base ≤ 50000 }
    ensures { IfOk result (λ v. (rest : Code) → onto v.items rest ≡ restoring (spill_indices base ids.now) (layout.now.size - 4) layout.now.places.items rest) }
{
    let mut out = Vec::new(alloc);
    let scratch = base + 1;
    put_location_taken(&mut out, ids.address, scratch, layout.size)?;
    put_locals_loaded(&mut out, scratch, &layout.places)?;
    put_loaded(&mut out, scratch, index_place(layout, base))?;
    Ok(out)
}

/// Code that runs where the state isn't 0.
fn unless_normal(alloc: Global, state: u32, arm: Vec<Instr>) -> Result<Vec<Instr>, AllocError>
    ensures { IfOk result (λ v. (rest : Code) → onto v.items rest ≡ unless_normal state (code arm.items) rest) }
{
    let mut out = Vec::new(alloc);
    put_all(
        &mut out,
        [
            Instr::GlobalGet(state),
            Instr::If {
                result: None,
                then_arm: arm,
                else_arm: Vec::new(alloc),
            },
        ],
    )?;
    Ok(out)
}

/// What stands in front of a function's body, where these are the frames of its numbered calls: where the state isn't 0,
/// the function's frame is restored, from the location lowered by it. The call index is local `base`, and the locals
/// behind it are scratch locals.
pub fn prologue(
    alloc: Global,
    layouts: &[Layout],
    base: u32,
    ids: &RuntimeIds,
) -> Result<Vec<Instr>, AllocError>
    requires alike { AreAlike layouts.now }
    requires base { base ≤ 50000 }
    ensures { IfOk result (λ v. (rest : Code) → onto v.items rest ≡ prologue_code base ids.now (slice_get layouts.now 0) rest) }
{
    match layouts.first() {
        None => Ok(Vec::new(alloc)),
        Some(layout) => {
            let arm = restoring(alloc, layout, base, ids)?;
            unless_normal(alloc, ids.state, arm)
        }
    }
}

/// What stands behind a function's body: where the state isn't 0, its frame is saved at the location, which is raised to
/// the frame's end. A frame that doesn't fit traps before anything is written.
pub fn epilogue(
    alloc: Global,
    layouts: &[Layout],
    base: u32,
    ids: &RuntimeIds,
) -> Result<Vec<Instr>, AllocError>
    requires alike { AreAlike layouts.now }
    requires base { base ≤ 50000 }
    ensures { IfOk result (λ v. (rest : Code) → onto v.items rest ≡ epilogue_code base ids.now (slice_get layouts.now 0) rest) }
{
    match layouts.first() {
        None => Ok(Vec::new(alloc)),
        Some(layout) => {
            let arm = saving(alloc, layout, base, ids)?;
            unless_normal(alloc, ids.state, arm)
        }
    }
}
