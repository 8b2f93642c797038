//! Code that tests whether a frame fits.

ghost use Rattle.std.specs.Prelude.{OnOk};
ghost use Rattle.local_spill.specs.Putting.{Puts};
ghost use Rattle.local_spill.specs.Spilling.{room_tested};

use crate::putting::{load_of, put_all};
use std::alloc::{AllocError, Global};
use wa_types::{Instr, NumOp, ValType, Value};

/// Puts what traps where the frame doesn't fit; else its address is noted.
pub(crate) fn put_room_test(
    alloc: Global,
    out: &mut Vec<Instr>,
    address: u32,
    scratch: u32,
    size: u32,
) -> Result<(), AllocError>
    ensures { OnOk result (Puts out.old.items out.new.items (room_tested address scratch size)) }
{
    let mut trap = Vec::new(alloc);
    trap.push(Instr::Unreachable)?;
    put_all(
        out,
        [
            Instr::GlobalGet(address),
            load_of(ValType::I32, 4),
            Instr::GlobalGet(address),
            load_of(ValType::I32, 0),
            Instr::LocalTee(scratch),
            Instr::Num(NumOp::I32Sub),
            Instr::Const(Value::I32(size)),
            Instr::Num(NumOp::I32LtU),
            Instr::If {
                result: None,
                then_arm: trap,
                else_arm: Vec::new(alloc),
            },
        ],
    )
}
