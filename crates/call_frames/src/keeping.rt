//! The fields of a set.

ghost use Rattle.std.specs.Prelude.{◌≡◌, ◌≤◌, ◌++◌, ◌∷◌, [], length, IfOk, OnOk, if◌then◌else◌};
ghost use Rattle.call_frames.specs.Views.{fields_in, fields_of};

use crate::frames::KeptLocal;
use std::alloc::{AllocError, Global};
use wa_types::ValType;

/// Puts a local, where told.
fn put_kept(out: &mut Vec<KeptLocal>, kept: KeptLocal, told: bool) -> Result<(), AllocError>
    ensures { OnOk result (out.new.items ≡ out.old.items ++ (if told then kept ∷ [] else [])) }
{
    if told {
        out.push(kept)?;
    }
    Ok(())
}

/// The locals that a set has.
pub(crate) fn kept_locals(
    alloc: Global,
    set: &[bool],
    types: &[ValType],
) -> Result<Vec<KeptLocal>, AllocError>
    requires size { length set.now ≡ length types.now }
    requires few { length types.now ≤ 50000 }
    ensures fields { IfOk result (λ v. fields_of v.items ≡ fields_in 0 set.now types.now) }
    ensures few { IfOk result (λ v. length v.items ≤ 50000) }
{
    let mut kept = Vec::new(alloc);
    for local in 0..set.len() {
        let field = KeptLocal {
            local: local as u32,
            ty: types[local],
        };
        put_kept(&mut kept, field, set[local])?;
    }
    Ok(kept)
}
