//! Code that moves the location, where the next frame goes.

ghost use Rattle.std.specs.Prelude.{OnOk};
ghost use Rattle.local_spill.specs.Putting.{Puts};
ghost use Rattle.local_spill.specs.Spilling.{location_raised, location_taken};

use crate::putting::{load_of, put_all, store_of};
use std::alloc::AllocError;
use wa_types::{Instr, NumOp, ValType, Value};

/// Puts what raises the location to the frame's end.
pub fn put_location_raised(
    out: &mut Vec<Instr>,
    address: u32,
    scratch: u32,
    size: u32,
) -> Result<(), AllocError>
    ensures { OnOk result (Puts out.old.items out.new.items (location_raised address scratch size)) }
{
    put_all(
        out,
        [
            Instr::GlobalGet(address),
            Instr::LocalGet(scratch),
            Instr::Const(Value::I32(size)),
            Instr::Num(NumOp::I32Add),
            store_of(ValType::I32, 0),
        ],
    )
}

/// Puts what lowers the location by the frame, and notes the frame's address.
pub(crate) fn put_location_taken(
    out: &mut Vec<Instr>,
    address: u32,
    scratch: u32,
    size: u32,
) -> Result<(), AllocError>
    ensures { OnOk result (Puts out.old.items out.new.items (location_taken address scratch size)) }
{
    put_all(
        out,
        [
            Instr::GlobalGet(address),
            Instr::GlobalGet(address),
            load_of(ValType::I32, 0),
            Instr::Const(Value::I32(size)),
            Instr::Num(NumOp::I32Sub),
            Instr::LocalTee(scratch),
            store_of(ValType::I32, 0),
        ],
    )
}
