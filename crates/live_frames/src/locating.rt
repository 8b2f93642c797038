//! Code that reads and moves the location, where the next frame goes, and the index.

ghost use Rattle.std.specs.Prelude.{OnOk};
ghost use Rattle.wa_types.specs.Syntax.{local_set, plain};
ghost use Rattle.wa_types.specs.declared.values.ValType.TheVariants.{I32};
ghost use Rattle.call_frames.specs.FrameParts.{location_lowered};
ghost use Rattle.local_spill.specs.Putting.{Puts};
ghost use Rattle.local_spill.specs.Spilling.{loaded_value};
ghost use Rattle.live_frames.specs.Putting.{location_noted, room_tested};

use local_spill::{load_of, put_all, store_of};
use std::alloc::{AllocError, Global};
use wa_types::{Instr, NumOp, ValType, Value};

/// Puts what traps where a frame of the size on top doesn't fit; else the scratch local becomes the location.
pub(crate) fn put_room_test(
    alloc: Global,
    out: &mut Vec<Instr>,
    address: u32,
    scratch: u32,
) -> Result<(), AllocError>
    ensures { OnOk result (Puts out.old.items out.new.items (room_tested address scratch)) }
{
    let mut trap = Vec::new(alloc);
    trap.push(Instr::Unreachable)?;
    put_all(
        out,
        [
            Instr::GlobalGet(address),
            load_of(ValType::I32, 4),
            Instr::GlobalGet(address),
            load_of(ValType::I32, 0),
            Instr::LocalTee(scratch),
            Instr::Num(NumOp::I32Sub),
            Instr::Num(NumOp::I32GtU),
            Instr::If {
                result: None,
                then_arm: trap,
                else_arm: Vec::new(alloc),
            },
        ],
    )
}

/// Puts what sets the scratch local to the location, lowered by so many bytes.
pub(crate) fn put_location_noted(
    out: &mut Vec<Instr>,
    address: u32,
    scratch: u32,
    size: u32,
) -> Result<(), AllocError>
    ensures { OnOk result (Puts out.old.items out.new.items (location_noted address scratch size)) }
{
    put_all(
        out,
        [
            Instr::GlobalGet(address),
            load_of(ValType::I32, 0),
            Instr::Const(Value::I32(size)),
            Instr::Num(NumOp::I32Sub),
            Instr::LocalTee(scratch),
        ],
    )
}

/// Puts what loads the call index from an offset behind the address on the stack.
pub(crate) fn put_index_loaded(
    out: &mut Vec<Instr>,
    index: u32,
    offset: u32,
) -> Result<(), AllocError>
    ensures { OnOk result (Puts out.old.items out.new.items (λ c. loaded_value I32 offset (plain (local_set index) c))) }
{
    out.push(load_of(ValType::I32, offset))?;
    out.push(Instr::LocalSet(index))?;
    Ok(())
}

/// Puts what lowers the location to the scratch local.
pub(crate) fn put_location_lowered(
    out: &mut Vec<Instr>,
    address: u32,
    scratch: u32,
) -> Result<(), AllocError>
    ensures { OnOk result (Puts out.old.items out.new.items (location_lowered address scratch)) }
{
    put_all(
        out,
        [
            Instr::GlobalGet(address),
            Instr::LocalGet(scratch),
            store_of(ValType::I32, 0),
        ],
    )
}
