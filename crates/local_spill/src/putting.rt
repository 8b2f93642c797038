//! Code that stores and loads what a frame keeps.

ghost use Rattle.std.specs.Prelude.{◌≡◌, ◌≤◌, OnOk};
ghost use Rattle.wa_types.specs.Syntax.{Code, local_get, local_set, plain};
ghost use Rattle.wa_types.specs.View.{in_front, onto};
ghost use Rattle.local_spill.specs.Putting.{Puts};
ghost use Rattle.local_spill.specs.Spilling.{loaded_value, locals_loaded, locals_stored, stored_value};

use crate::frames::Place;
use std::alloc::AllocError;
use wa_types::{Instr, ValType};

/// The store of a value of this type.
pub fn store_of(ty: ValType, offset: u32) -> Instr
    ensures { (rest : Code) → in_front result rest ≡ stored_value ty offset rest }
{
    match ty {
        ValType::I32 => Instr::Store {
            op: 0x36,
            align: 2,
            offset,
        },
        ValType::I64 => Instr::Store {
            op: 0x37,
            align: 3,
            offset,
        },
    }
}

/// The load of a value of this type.
pub fn load_of(ty: ValType, offset: u32) -> Instr
    ensures { (rest : Code) → in_front result rest ≡ loaded_value ty offset rest }
{
    match ty {
        ValType::I32 => Instr::Load {
            op: 0x28,
            align: 2,
            offset,
        },
        ValType::I64 => Instr::Load {
            op: 0x29,
            align: 3,
            offset,
        },
    }
}

/// Puts these instructions behind those that are there.
pub fn put_all<const N: usize>(out: &mut Vec<Instr>, instrs: [Instr; N]) -> Result<(), AllocError>
    requires { N ≤ 16 }
    ensures { OnOk result (Puts out.old.items out.new.items (onto instrs.entry)) }
{
    out.extend(instrs)
}

/// Puts what stores a local at its offset behind the address in the scratch local.
pub fn put_stored(out: &mut Vec<Instr>, scratch: u32, place: Place) -> Result<(), AllocError>
    ensures { OnOk result (Puts out.old.items out.new.items (λ c. plain (local_get scratch) (plain (local_get place.local) (stored_value place.ty place.offset c)))) }
{
    put_all(
        out,
        [
            Instr::LocalGet(scratch),
            Instr::LocalGet(place.local),
            store_of(place.ty, place.offset),
        ],
    )
}

/// Puts what loads a local from its offset behind the address in the scratch local.
pub fn put_loaded(out: &mut Vec<Instr>, scratch: u32, place: Place) -> Result<(), AllocError>
    ensures { OnOk result (Puts out.old.items out.new.items (λ c. plain (local_get scratch) (loaded_value place.ty place.offset (plain (local_set place.local) c)))) }
{
    put_all(
        out,
        [
            Instr::LocalGet(scratch),
            load_of(place.ty, place.offset),
            Instr::LocalSet(place.local),
        ],
    )
}

/// Puts what stores each of these locals at its offset.
pub(crate) fn put_locals_stored(
    out: &mut Vec<Instr>,
    scratch: u32,
    places: &[Place],
) -> Result<(), AllocError>
    ensures { OnOk result (Puts out.old.items out.new.items (locals_stored scratch places.now)) }
{
    for place in places {
        put_stored(out, scratch, *place)?;
    }
    Ok(())
}

/// Puts what loads each of these locals from its offset.
pub(crate) fn put_locals_loaded(
    out: &mut Vec<Instr>,
    scratch: u32,
    places: &[Place],
) -> Result<(), AllocError>
    ensures { OnOk result (Puts out.old.items out.new.items (locals_loaded scratch places.now)) }
{
    for place in places {
        put_loaded(out, scratch, *place)?;
    }
    Ok(())
}
