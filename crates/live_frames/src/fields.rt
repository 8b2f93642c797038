//! The bytes of fields, and of the parts that all calls keep.

ghost use Rattle.std.specs.Prelude.{◌≡◌, ◌≤◌, ◌∷◌, [], ℕ, length};
ghost use Rattle.frame_laws.specs.Layout.{fields_size};
ghost use Rattle.call_frames.specs.FrameParts.{shared_size};
ghost use Rattle.call_frames.specs.PlainFrames.{parts_of};
ghost use Rattle.call_frames.specs.Classes.{FewParts, part_fields};
ghost use Rattle.call_frames.specs.Views.{fields_of, part_view, part_views};

use call_frames::{KeptLocal, KeptPart};
use local_spill::width;

/// The bytes that fields take.
pub fn size_of(fields: &[KeptLocal]) -> u32
    requires { length fields.now ≤ 50000 }
    ensures size { result ≡ fields_size (fields_of fields.now) }
    ensures small { result ≤ 400000 }
{
    let mut size = 0;
    for field in fields {
        size += width(field.ty);
    }
    size
}

/// The bytes of a part that all calls keep.
pub fn shared_in(part: &KeptPart) -> u32
    requires { part_fields (part_view part.now) ≤ 50000 }
    ensures size { (index : ℕ) → result ≡ shared_size (parts_of index (part_view part.now ∷ [])) }
    ensures small { result ≤ 400000 }
{
    match part {
        KeptPart::Every(fields) => size_of(fields),
        KeptPart::These(_) => 0,
    }
}

/// The bytes that all calls keep.
pub fn shared_of(parts: &[KeptPart]) -> u32
    requires { FewParts (part_views parts.now) }
    ensures size { (index : ℕ) → result ≡ shared_size (parts_of index (part_views parts.now)) }
    ensures small { result ≤ 400000 }
{
    let mut size = 0;
    for part in parts {
        size += shared_in(part);
    }
    size
}
