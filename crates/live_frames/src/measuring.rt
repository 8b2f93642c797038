//! How many instructions tell the size of a call's frame.

ghost use Rattle.std.specs.Prelude.{◌≡◌, ◌+◌, ◌∷◌, []};
ghost use Rattle.call_frames.specs.PlainFrames.{calls_size, part_weights, weights_size};
ghost use Rattle.call_frames.specs.Views.{part_view, part_views};
ghost use Rattle.live_frames.specs.Rows.{saturated};
ghost use Rattle.live_frames.specs.Digits.{plane_views};

use crate::counting::calls_size;
use crate::digits::Plane;
use call_frames::{Calls, KeptPart};

/// How many instructions add what these calls add.
fn weight_size(calls: &Calls) -> u64
    ensures { result ≡ saturated (calls_size calls.now + 3) }
{
    calls_size(calls).saturating_add(3)
}

/// How many instructions add the size of a part.
fn part_size(part: &KeptPart) -> u64
    ensures { result ≡ saturated (weights_size (part_weights (part_view part.now ∷ []))) }
{
    match part {
        KeptPart::Every(_) => 0,
        KeptPart::These(class) => weight_size(&class.calls),
    }
}

/// How many instructions add the sizes of parts.
pub(crate) fn parts_size(parts: &[KeptPart]) -> u64
    ensures { result ≡ saturated (weights_size (part_weights (part_views parts.now))) }
{
    let mut size: u64 = 0;
    for part in parts {
        size = size.saturating_add(part_size(part));
    }
    size
}

/// How many instructions add what digits add.
pub(crate) fn planes_size(planes: &[Plane]) -> u64
    ensures { result ≡ saturated (weights_size (plane_views planes.now)) }
{
    let mut size: u64 = 0;
    for plane in planes {
        size = size.saturating_add(weight_size(&plane.calls));
    }
    size
}
