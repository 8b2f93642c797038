//! Parts of frames, from groups or classes.

ghost use Rattle.std.specs.Prelude.{◌≡◌, map, IfOk};
ghost use Rattle.call_frames.specs.CallParts.{shared_where};
ghost use Rattle.call_frames.specs.Views.{class_part, class_parts, part_view, part_views};

use crate::frames::{CallClass, KeptPart};
use std::alloc::{AllocError, Global};

/// A group among so many calls: what all of them keep has no numbers of calls.
fn part_among(count: usize, group: CallClass) -> KeptPart
    ensures { part_view result ≡ shared_where count (class_part group) }
{
    if group.calls.are(count) {
        let CallClass { calls: _, fields } = group;
        return KeptPart::Every(fields);
    }
    KeptPart::These(group)
}

/// The parts of these groups among so many calls.
pub(crate) fn parts_of_groups(
    alloc: Global,
    count: usize,
    groups: Vec<CallClass>,
) -> Result<Vec<KeptPart>, AllocError>
    ensures { IfOk result (λ v. part_views v.items ≡ map (shared_where count) (class_parts groups.items)) }
{
    let mut parts = Vec::new(alloc);
    for group in groups {
        parts.push(part_among(count, group))?;
    }
    Ok(parts)
}

/// The parts of these classes.
pub(crate) fn parts_of_classes(
    alloc: Global,
    classes: Vec<CallClass>,
) -> Result<Vec<KeptPart>, AllocError>
    ensures { IfOk result (λ v. part_views v.items ≡ class_parts classes.items) }
{
    let mut parts = Vec::new(alloc);
    for class in classes {
        parts.push(KeptPart::These(class))?;
    }
    Ok(parts)
}
