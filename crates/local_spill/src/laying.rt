//! Frames laid out: each local directly behind the one before.

ghost use Rattle.std.specs.Prelude.{◌≡◌, ◌+◌, ◌≤◌, length, IfOk};
ghost use Rattle.wa_types.specs.Frames.{width};
ghost use Rattle.local_spill.specs.Laying.{in_a_row, row_size, SizedAsSaved};

use crate::frames::{Layout, Place};
use std::alloc::{AllocError, Global};
use wa_types::ValType;

/// The bytes that a value takes.
pub fn width(ty: ValType) -> u32
    ensures { result ≡ width ty }
{
    match ty {
        ValType::I32 => 4,
        ValType::I64 => 8,
    }
}

/// The frame of the numbered call with this number: these locals, each directly behind the one before, and behind
/// them the call's number. Their offsets aren't read.
pub fn layout(alloc: Global, index: u32, saved: &[Place]) -> Result<Layout, AllocError>
    requires { length saved.now ≤ 50000 }
    ensures index { IfOk result (λ l. l.index ≡ index) }
    ensures places { IfOk result (λ l. l.places.items ≡ in_a_row 0 saved.now) }
    ensures size { IfOk result (λ l. l.size ≡ row_size saved.now + 4) }
    ensures saved { IfOk result (λ l. SizedAsSaved saved.now l.size) }
{
    let mut places = Vec::with_capacity(alloc, saved.len())?;
    let mut offset = 0;
    for place in saved {
        places.push(Place {
            local: place.local,
            ty: place.ty,
            offset,
        })?;
        offset += width(place.ty);
    }
    Ok(Layout {
        index,
        size: offset + 4,
        places,
    })
}
