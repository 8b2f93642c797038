//! Parts of frames, from the calls that keep each local.

ghost use Rattle.std.specs.Prelude.{◌≤◌, ◌<◌, ◌^◌, List, length, IfOk, Bool};
ghost use Rattle.call_frames.specs.Classes.{AllAre, AllShared, AreKept, FewParts, KeepCheaply};
ghost use Rattle.call_frames.specs.Views.{parts_view};

use crate::bounding::least_length;
use crate::finding::classes_of;
use crate::frames::FrameParts;
use crate::grouping::groups_of;
use crate::measuring::{are_better, are_short, length_of};
use crate::noting::sets_from;
use crate::parting::{parts_of_classes, parts_of_groups};
use crate::rows::Calls;
use std::alloc::{AllocError, Global};
use wa_types::ValType;

/// The parts of the frames of so many calls, where these calls keep each local: at each call exactly the fields of its set, in order.
/// Neighbours that the same calls keep are a part, and what all calls keep stands under no test; where the tests of that cost too much, or
/// classes of calls that keep the same are shorter, it is these: they aren't made where that is seen beforehand, since together they may have as
/// many fields as there are locals and calls multiplied. Where all calls keep the same, nothing stands under a test.
pub fn saved_parts(
    alloc: Global,
    keepers: &[Calls],
    count: usize,
    types: &[ValType],
) -> Result<FrameParts, AllocError>
    requires kept { (sets : List (List Bool)) × AreKept (length types.now) count sets keepers.now }
    requires few { length types.now ≤ 50000 }
    requires calls { count < 2 ^ 32 }
    ensures keep { IfOk result (λ p. (sets : List (List Bool)) → AreKept (length types.now) count sets keepers.now → KeepCheaply types.now sets (parts_view p)) }
    ensures alike { IfOk result (λ p. (set : List Bool) (sets : List (List Bool)) → AreKept (length types.now) count sets keepers.now → 1 ≤ count → AllAre set sets
        → AllShared (parts_view p)) }
    ensures few { IfOk result (λ p. FewParts (parts_view p)) }
{
    let groups = parts_of_groups(alloc, count, groups_of(alloc, keepers, types)?)?;
    let most = 27 * (types.len() as u64 + count as u64);
    let least = least_length(alloc, keepers, count, length_of(&groups))?;
    if are_short(&groups, least, most) {
        return Ok(FrameParts { parts: groups });
    }
    let sets = sets_from(alloc, keepers, count)?;
    let classes = parts_of_classes(alloc, classes_of(alloc, &sets, types)?)?;
    if are_better(&groups, &classes, most) {
        return Ok(FrameParts { parts: groups });
    }
    Ok(FrameParts { parts: classes })
}
