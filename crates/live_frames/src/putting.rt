//! Where a field stands, and what moves the scratch local.

ghost use Rattle.std.specs.Prelude.{◌≡◌, OnOk};
ghost use Rattle.local_spill.specs.Putting.{Puts};
ghost use Rattle.live_frames.specs.Putting.{scratch_moved};

use call_frames::KeptLocal;
use local_spill::{Place, put_all};
use std::alloc::AllocError;
use wa_types::{Instr, NumOp, Value};

/// A field at an offset in the frame.
pub(crate) fn field_at(field: KeptLocal, offset: u32) -> Place
    ensures { result ≡ record { local = field.local; ty = field.ty; offset = offset } }
{
    Place {
        local: field.local,
        ty: field.ty,
        offset,
    }
}

/// Puts what moves the scratch local by so many bytes.
pub(crate) fn put_scratch_moved(
    out: &mut Vec<Instr>,
    scratch: u32,
    size: u32,
    op: NumOp,
) -> Result<(), AllocError>
    ensures { OnOk result (Puts out.old.items out.new.items (scratch_moved scratch size op)) }
{
    put_all(
        out,
        [
            Instr::LocalGet(scratch),
            Instr::Const(Value::I32(size)),
            Instr::Num(op),
            Instr::LocalSet(scratch),
        ],
    )
}
