//! Code that loads what frames keep.

ghost use Rattle.std.specs.Prelude.{◌≡◌, ◌≤◌, ◌∷◌, [], length, OnOk, IfOk};
ghost use Rattle.wa_types.specs.Syntax.{done};
ghost use Rattle.wa_types.specs.View.{code};
ghost use Rattle.frame_laws.specs.Layout.{fields_size, loads};
ghost use Rattle.call_frames.specs.FrameParts.{parts_loaded, scratch_lowered, shared_size};
ghost use Rattle.call_frames.specs.PlainFrames.{parts_of};
ghost use Rattle.local_spill.specs.Putting.{Puts};
ghost use Rattle.call_frames.specs.Classes.{FewParts, part_fields};
ghost use Rattle.call_frames.specs.Views.{fields_of, part_view, part_views};

use crate::fields::{shared_in, size_of};
use crate::putting::{field_at, put_scratch_moved};
use crate::testing::put_under_test;
use call_frames::{KeptLocal, KeptPart};
use local_spill::{put_loaded, width};
use std::alloc::{AllocError, Global};
use wa_types::{Instr, NumOp};

/// Puts what loads these locals in a row, from an offset on.
pub(crate) fn put_fields_loaded(
    out: &mut Vec<Instr>,
    scratch: u32,
    offset: u32,
    fields: &[KeptLocal],
) -> Result<(), AllocError>
    requires few { length fields.now ≤ 50000 }
    requires offset { offset ≤ 400000 }
    ensures { OnOk result (Puts out.old.items out.new.items (loads scratch offset (fields_of fields.now))) }
{
    let mut place = offset;
    for field in fields {
        put_loaded(out, scratch, field_at(*field, place))?;
        place += width(field.ty);
    }
    Ok(())
}

/// What lowers the scratch local by the size of a class, and loads its fields.
fn class_loaded(
    alloc: Global,
    scratch: u32,
    offset: u32,
    fields: &[KeptLocal],
) -> Result<Vec<Instr>, AllocError>
    requires few { length fields.now ≤ 50000 }
    requires offset { offset ≤ 400000 }
    ensures { IfOk result (λ v. code v.items ≡ scratch_lowered scratch (fields_size (fields_of fields.now)) (loads scratch offset (fields_of fields.now) done)) }
{
    let mut out = Vec::new(alloc);
    put_scratch_moved(&mut out, scratch, size_of(fields), NumOp::I32Sub)?;
    put_fields_loaded(&mut out, scratch, offset, fields)?;
    Ok(out)
}

/// Puts what loads a part, from an offset on.
fn put_part_loaded(
    alloc: Global,
    out: &mut Vec<Instr>,
    index: u32,
    scratch: u32,
    offset: u32,
    part: &KeptPart,
) -> Result<(), AllocError>
    requires few { part_fields (part_view part.now) ≤ 50000 }
    requires offset { offset ≤ 400000 }
    ensures { OnOk result (Puts out.old.items out.new.items (parts_loaded scratch offset (parts_of index (part_view part.now ∷ [])))) }
{
    match part {
        KeptPart::Every(fields) => put_fields_loaded(out, scratch, offset, fields),
        KeptPart::These(class) => {
            let arm = class_loaded(alloc, scratch, offset, &class.fields)?;
            put_under_test(alloc, out, index, &class.calls, arm)
        }
    }
}

/// Puts what loads the parts that the call keeps, of which so many bytes are all calls'. The last part comes first.
pub(crate) fn put_parts_loaded(
    alloc: Global,
    out: &mut Vec<Instr>,
    index: u32,
    scratch: u32,
    shared: u32,
    parts: &[KeptPart],
) -> Result<(), AllocError>
    requires few { FewParts (part_views parts.now) }
    requires shared { shared ≡ shared_size (parts_of index (part_views parts.now)) }
    ensures { OnOk result (Puts out.old.items out.new.items (parts_loaded scratch 0 (parts_of index (part_views parts.now)))) }
{
    let mut offset = shared;
    let mut left = parts.len();
    while left > 0 {
        left -= 1;
        let part = &parts[left];
        offset -= shared_in(part);
        put_part_loaded(alloc, out, index, scratch, offset, part)?;
    }
    Ok(())
}
