//! Groups of neighbours that the same calls keep.

ghost use Rattle.std.specs.Prelude.{◌≡◌, ◌≤◌, ◌++◌, ◌∷◌, [], length, IfOk, OnOk};
ghost use Rattle.call_frames.specs.PlainFrames.{at_these};
ghost use Rattle.call_frames.specs.CallParts.{grouped_by, with_kept};
ghost use Rattle.call_frames.specs.Views.{class_parts, kept_field};

use crate::frames::{CallClass, KeptLocal};
use crate::rows::Calls;
use std::alloc::{AllocError, Global};
use wa_types::ValType;

/// Puts a field behind those of a group.
fn put_field(group: &mut CallClass, field: KeptLocal) -> Result<(), AllocError>
    ensures fields { OnOk result (group.new.fields.items ≡ group.old.fields.items ++ field ∷ []) }
    ensures calls { group.new.calls ≡ group.old.calls }
{
    group.fields.push(field)?;
    Ok(())
}

/// Puts a group that has one field so far.
fn put_group(
    alloc: Global,
    groups: &mut Vec<CallClass>,
    calls: &Calls,
    field: KeptLocal,
) -> Result<(), AllocError>
    ensures { OnOk result (class_parts groups.new.items ≡ class_parts groups.old.items ++ at_these calls.now (kept_field field ∷ []) ∷ []) }
{
    let mut fields = Vec::new(alloc);
    fields.push(field)?;
    let calls = calls.copied(alloc)?;
    groups.push(CallClass { calls, fields })?;
    Ok(())
}

/// Puts the next local, which these calls keep: into the last group where the same calls keep that, else into a group of its own.
fn put_local(
    alloc: Global,
    groups: &mut Vec<CallClass>,
    calls: &Calls,
    field: KeptLocal,
) -> Result<(), AllocError>
    ensures { OnOk result (class_parts groups.new.items ≡ with_kept calls.now (kept_field field) (class_parts groups.old.items)) }
{
    if calls.is_empty() {
        return Ok(());
    }
    let count = groups.len();
    if count == 0 {
        return put_group(alloc, groups, calls, field);
    }
    if !groups[count - 1].calls.equal(calls) {
        return put_group(alloc, groups, calls, field);
    }
    put_field(&mut groups[count - 1], field)
}

/// The groups of locals that these calls keep.
pub(crate) fn groups_of(
    alloc: Global,
    keepers: &[Calls],
    types: &[ValType],
) -> Result<Vec<CallClass>, AllocError>
    requires size { length keepers.now ≡ length types.now }
    requires few { length types.now ≤ 50000 }
    ensures { IfOk result (λ v. class_parts v.items ≡ grouped_by 0 types.now keepers.now []) }
{
    let mut groups = Vec::new(alloc);
    for local in 0..keepers.len() {
        let field = KeptLocal {
            local: local as u32,
            ty: types[local],
        };
        put_local(alloc, &mut groups, &keepers[local], field)?;
    }
    Ok(groups)
}
