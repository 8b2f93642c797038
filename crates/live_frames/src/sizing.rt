//! Code that tells the size of the call's frame.

ghost use Rattle.std.specs.Prelude.{◌≤◌, ◌∷◌, [], OnOk};
ghost use Rattle.wa_types.specs.Syntax.{basic, const, plain};
ghost use Rattle.wa_types.specs.declared.values.Value.TheVariants.{I32 as value_32};
ghost use Rattle.call_frames.specs.PlainFrames.{own_weights, part_weights, weighed, weights_added};
ghost use Rattle.local_spill.specs.Putting.{Puts};
ghost use Rattle.call_frames.specs.Classes.{FewParts, part_fields};
ghost use Rattle.call_frames.specs.Views.{part_view, part_views};
ghost use Rattle.live_frames.specs.Digits.{plane_views};

use crate::digits::{Plane, digits_of};
use crate::fields::size_of;
use crate::measuring::{parts_size, planes_size};
use crate::testing::put_test;
use call_frames::KeptPart;
use local_spill::put_all;
use std::alloc::{AllocError, Global};
use wa_types::{Instr, NumOp, Value};

/// Puts what adds so many bytes for a 1 on top to the number below it.
fn put_weighed(out: &mut Vec<Instr>, size: u32) -> Result<(), AllocError>
    ensures { OnOk result (Puts out.old.items out.new.items (weighed size)) }
{
    put_all(
        out,
        [
            Instr::Const(Value::I32(size)),
            Instr::Num(NumOp::I32Mul),
            Instr::Num(NumOp::I32Add),
        ],
    )
}

/// Puts what adds the size of a part, where the call keeps it and others don't.
fn put_size_added(
    alloc: Global,
    out: &mut Vec<Instr>,
    index: u32,
    part: &KeptPart,
) -> Result<(), AllocError>
    requires { part_fields (part_view part.now) ≤ 50000 }
    ensures { OnOk result (Puts out.old.items out.new.items (weights_added index (part_weights (part_view part.now ∷ [])))) }
{
    match part {
        KeptPart::Every(_) => Ok(()),
        KeptPart::These(class) => {
            put_test(alloc, out, index, &class.calls)?;
            put_weighed(out, size_of(&class.fields))
        }
    }
}

/// Puts what adds the sizes of the call's own parts to the number on top.
fn put_sizes_added(
    alloc: Global,
    out: &mut Vec<Instr>,
    index: u32,
    parts: &[KeptPart],
) -> Result<(), AllocError>
    requires { FewParts (part_views parts.now) }
    ensures { OnOk result (Puts out.old.items out.new.items (weights_added index (part_weights (part_views parts.now)))) }
{
    for part in parts {
        put_size_added(alloc, out, index, part)?;
    }
    Ok(())
}

/// Puts what adds the digits that the call has to the number on top.
fn put_planes_added(
    alloc: Global,
    out: &mut Vec<Instr>,
    index: u32,
    planes: &[Plane],
) -> Result<(), AllocError>
    ensures { OnOk result (Puts out.old.items out.new.items (weights_added index (plane_views planes.now))) }
{
    for plane in planes {
        put_test(alloc, out, index, &plane.calls)?;
        put_weighed(out, plane.bytes)?;
    }
    Ok(())
}

/// Puts what adds the sizes of the call's own parts to the number on top: part by part, or digit by digit where that isn't longer.
fn put_own_size(
    alloc: Global,
    out: &mut Vec<Instr>,
    index: u32,
    parts: &[KeptPart],
) -> Result<(), AllocError>
    requires { FewParts (part_views parts.now) }
    ensures { OnOk result (Puts out.old.items out.new.items (weights_added index (own_weights (part_views parts.now)))) }
{
    let planes = digits_of(alloc, parts)?;
    if planes_size(&planes) <= parts_size(parts) {
        return put_planes_added(alloc, out, index, &planes);
    }
    put_sizes_added(alloc, out, index, parts)
}

/// Puts what leaves the size of the call's frame on top, of which so many bytes are all calls'.
pub fn put_size(
    alloc: Global,
    out: &mut Vec<Instr>,
    index: u32,
    shared: u32,
    parts: &[KeptPart],
) -> Result<(), AllocError>
    requires { FewParts (part_views parts.now) }
    ensures { OnOk result (Puts out.old.items out.new.items (λ c. plain (basic (const (value_32 shared))) (weights_added index (own_weights (part_views parts.now)) c))) }
{
    out.push(Instr::Const(Value::I32(shared)))?;
    put_own_size(alloc, out, index, parts)?;
    Ok(())
}
