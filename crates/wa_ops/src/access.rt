//! The tables of loads and stores, a row for each opcode (standard, sections 2.4.4 and 5.4.4).

ghost use Rattle.std.specs.Prelude.{◌≡◌, ◌<◌, ◌^◌};
ghost use Rattle.std.specs.Option.{option_map};
ghost use Rattle.wa_types.specs.Accesses.{load_row, store_row};

use wa_types::ValType;

/// A row of the table of loads and stores: the type of the value, the number of bytes with its exponent of 2, and
/// whether a load extends their sign (standard, section 2.4.4).
#[derive(Clone, Copy)]
pub struct Access {
    pub ty: ValType,
    pub natural: u32,
    pub signed: bool,
}

ghost use Rattle.wa_ops.specs.Access.{row_of};

/// The load of this opcode (standard, section 5.4.4).
pub fn load_access(op: u8) -> Option<Access>
    ensures { load_row op ≡ option_map (row_of op) result }
{
    match op {
        0x28 => Some(row(ValType::I32, 2, false)),
        0x29 => Some(row(ValType::I64, 3, false)),
        0x2C => Some(row(ValType::I32, 0, true)),
        0x2D => Some(row(ValType::I32, 0, false)),
        0x2E => Some(row(ValType::I32, 1, true)),
        0x2F => Some(row(ValType::I32, 1, false)),
        0x30 => Some(row(ValType::I64, 0, true)),
        0x31 => Some(row(ValType::I64, 0, false)),
        0x32 => Some(row(ValType::I64, 1, true)),
        0x33 => Some(row(ValType::I64, 1, false)),
        0x34 => Some(row(ValType::I64, 2, true)),
        0x35 => Some(row(ValType::I64, 2, false)),
        _ => None,
    }
}

/// The store of this opcode (standard, section 5.4.4).
pub fn store_access(op: u8) -> Option<Access>
    ensures { store_row op ≡ option_map (row_of op) result }
{
    match op {
        0x36 => Some(row(ValType::I32, 2, false)),
        0x37 => Some(row(ValType::I64, 3, false)),
        0x3A => Some(row(ValType::I32, 0, false)),
        0x3B => Some(row(ValType::I32, 1, false)),
        0x3C => Some(row(ValType::I64, 0, false)),
        0x3D => Some(row(ValType::I64, 1, false)),
        0x3E => Some(row(ValType::I64, 2, false)),
        _ => None,
    }
}

fn row(ty: ValType, natural: u32, signed: bool) -> Access
    ensures { result ≡ record { ty = ty; natural = natural; signed = signed } }
{
    Access {
        ty,
        natural,
        signed,
    }
}
