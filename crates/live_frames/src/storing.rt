//! Code that stores what frames keep.

ghost use Rattle.std.specs.Prelude.{◌≡◌, ◌≤◌, ◌∷◌, [], length, OnOk, IfOk};
ghost use Rattle.wa_types.specs.Syntax.{done};
ghost use Rattle.wa_types.specs.View.{code};
ghost use Rattle.frame_laws.specs.Layout.{fields_size, stores};
ghost use Rattle.call_frames.specs.FrameParts.{parts_stored, scratch_raised};
ghost use Rattle.call_frames.specs.PlainFrames.{parts_of};
ghost use Rattle.local_spill.specs.Putting.{Puts};
ghost use Rattle.call_frames.specs.Classes.{FewParts, part_fields};
ghost use Rattle.call_frames.specs.Views.{fields_of, part_view, part_views};

use crate::fields::{shared_in, size_of};
use crate::putting::{field_at, put_scratch_moved};
use crate::testing::put_under_test;
use call_frames::{KeptLocal, KeptPart};
use local_spill::{put_stored, width};
use std::alloc::{AllocError, Global};
use wa_types::{Instr, NumOp};

/// Puts what stores these locals in a row, from an offset on.
pub(crate) fn put_fields_stored(
    out: &mut Vec<Instr>,
    scratch: u32,
    offset: u32,
    fields: &[KeptLocal],
) -> Result<(), AllocError>
    requires few { length fields.now ≤ 50000 }
    requires offset { offset ≤ 400000 }
    ensures { OnOk result (Puts out.old.items out.new.items (stores scratch offset (fields_of fields.now))) }
{
    let mut place = offset;
    for field in fields {
        put_stored(out, scratch, field_at(*field, place))?;
        place += width(field.ty);
    }
    Ok(())
}

/// What stores the fields of a class, and raises the scratch local by their size.
fn class_stored(
    alloc: Global,
    scratch: u32,
    offset: u32,
    fields: &[KeptLocal],
) -> Result<Vec<Instr>, AllocError>
    requires few { length fields.now ≤ 50000 }
    requires offset { offset ≤ 400000 }
    ensures { IfOk result (λ v. code v.items ≡ stores scratch offset (fields_of fields.now) (scratch_raised scratch (fields_size (fields_of fields.now)) done)) }
{
    let mut out = Vec::new(alloc);
    put_fields_stored(&mut out, scratch, offset, fields)?;
    put_scratch_moved(&mut out, scratch, size_of(fields), NumOp::I32Add)?;
    Ok(out)
}

/// Puts what stores a part, from an offset on.
fn put_part_stored(
    alloc: Global,
    out: &mut Vec<Instr>,
    index: u32,
    scratch: u32,
    offset: u32,
    part: &KeptPart,
) -> Result<(), AllocError>
    requires few { part_fields (part_view part.now) ≤ 50000 }
    requires offset { offset ≤ 400000 }
    ensures { OnOk result (Puts out.old.items out.new.items (parts_stored scratch offset (parts_of index (part_view part.now ∷ [])))) }
{
    match part {
        KeptPart::Every(fields) => put_fields_stored(out, scratch, offset, fields),
        KeptPart::These(class) => {
            let arm = class_stored(alloc, scratch, offset, &class.fields)?;
            put_under_test(alloc, out, index, &class.calls, arm)
        }
    }
}

/// Puts what stores the parts that the call keeps, in order.
pub(crate) fn put_parts_stored(
    alloc: Global,
    out: &mut Vec<Instr>,
    index: u32,
    scratch: u32,
    parts: &[KeptPart],
) -> Result<(), AllocError>
    requires { FewParts (part_views parts.now) }
    ensures { OnOk result (Puts out.old.items out.new.items (parts_stored scratch 0 (parts_of index (part_views parts.now)))) }
{
    let mut offset = 0;
    for part in parts {
        put_part_stored(alloc, out, index, scratch, offset, part)?;
        offset += shared_in(part);
    }
    Ok(())
}
