//! Numeric operators on integers, by their opcodes (standard, sections 2.4.1 and 5.4.5).

/// The greatest opcode of a numeric instruction, on integers or floats (standard, section 5.4.5; from 0xC0 on version 2.0, section 5.4.7).
pub const LAST_NUMERIC: u8 = 0xC4;

/// A numeric operator (standard, sections 2.4.1 and 5.4.5; the sign extensions: version 2.0, section 5.4.7); its number is its opcode.
#[derive(Clone, Copy)]
pub enum NumOp {
    I32Eqz = 0x45,
    I32Eq = 0x46,
    I32Ne = 0x47,
    I32LtS = 0x48,
    I32LtU = 0x49,
    I32GtS = 0x4A,
    I32GtU = 0x4B,
    I32LeS = 0x4C,
    I32LeU = 0x4D,
    I32GeS = 0x4E,
    I32GeU = 0x4F,
    I64Eqz = 0x50,
    I64Eq = 0x51,
    I64Ne = 0x52,
    I64LtS = 0x53,
    I64LtU = 0x54,
    I64GtS = 0x55,
    I64GtU = 0x56,
    I64LeS = 0x57,
    I64LeU = 0x58,
    I64GeS = 0x59,
    I64GeU = 0x5A,
    I32Clz = 0x67,
    I32Ctz = 0x68,
    I32Popcnt = 0x69,
    I32Add = 0x6A,
    I32Sub = 0x6B,
    I32Mul = 0x6C,
    I32DivS = 0x6D,
    I32DivU = 0x6E,
    I32RemS = 0x6F,
    I32RemU = 0x70,
    I32And = 0x71,
    I32Or = 0x72,
    I32Xor = 0x73,
    I32Shl = 0x74,
    I32ShrS = 0x75,
    I32ShrU = 0x76,
    I32Rotl = 0x77,
    I32Rotr = 0x78,
    I64Clz = 0x79,
    I64Ctz = 0x7A,
    I64Popcnt = 0x7B,
    I64Add = 0x7C,
    I64Sub = 0x7D,
    I64Mul = 0x7E,
    I64DivS = 0x7F,
    I64DivU = 0x80,
    I64RemS = 0x81,
    I64RemU = 0x82,
    I64And = 0x83,
    I64Or = 0x84,
    I64Xor = 0x85,
    I64Shl = 0x86,
    I64ShrS = 0x87,
    I64ShrU = 0x88,
    I64Rotl = 0x89,
    I64Rotr = 0x8A,
    I32WrapI64 = 0xA7,
    I64ExtendI32S = 0xAC,
    I64ExtendI32U = 0xAD,
    I32Extend8S = 0xC0,
    I32Extend16S = 0xC1,
    I64Extend8S = 0xC2,
    I64Extend16S = 0xC3,
    I64Extend32S = 0xC4,
}

// All operators, by rising opcode (standard, section 5.4.5). The three conversions are found by name below; proofs read the whole list.
const OPERATORS: [NumOp; 66] = [
    NumOp::I32Eqz,
    NumOp::I32Eq,
    NumOp::I32Ne,
    NumOp::I32LtS,
    NumOp::I32LtU,
    NumOp::I32GtS,
    NumOp::I32GtU,
    NumOp::I32LeS,
    NumOp::I32LeU,
    NumOp::I32GeS,
    NumOp::I32GeU,
    NumOp::I64Eqz,
    NumOp::I64Eq,
    NumOp::I64Ne,
    NumOp::I64LtS,
    NumOp::I64LtU,
    NumOp::I64GtS,
    NumOp::I64GtU,
    NumOp::I64LeS,
    NumOp::I64LeU,
    NumOp::I64GeS,
    NumOp::I64GeU,
    NumOp::I32Clz,
    NumOp::I32Ctz,
    NumOp::I32Popcnt,
    NumOp::I32Add,
    NumOp::I32Sub,
    NumOp::I32Mul,
    NumOp::I32DivS,
    NumOp::I32DivU,
    NumOp::I32RemS,
    NumOp::I32RemU,
    NumOp::I32And,
    NumOp::I32Or,
    NumOp::I32Xor,
    NumOp::I32Shl,
    NumOp::I32ShrS,
    NumOp::I32ShrU,
    NumOp::I32Rotl,
    NumOp::I32Rotr,
    NumOp::I64Clz,
    NumOp::I64Ctz,
    NumOp::I64Popcnt,
    NumOp::I64Add,
    NumOp::I64Sub,
    NumOp::I64Mul,
    NumOp::I64DivS,
    NumOp::I64DivU,
    NumOp::I64RemS,
    NumOp::I64RemU,
    NumOp::I64And,
    NumOp::I64Or,
    NumOp::I64Xor,
    NumOp::I64Shl,
    NumOp::I64ShrS,
    NumOp::I64ShrU,
    NumOp::I64Rotl,
    NumOp::I64Rotr,
    NumOp::I32WrapI64,
    NumOp::I64ExtendI32S,
    NumOp::I64ExtendI32U,
    NumOp::I32Extend8S,
    NumOp::I32Extend16S,
    NumOp::I64Extend8S,
    NumOp::I64Extend16S,
    NumOp::I64Extend32S,
];

impl NumOp {
    ghost use Rattle.std.specs.Prelude.{◌≡◌, Some};
    ghost use Rattle.wa_types.specs.declared.operators.NumOp.{NumOp};
    ghost use Rattle.wa_types.specs.Operators.{opcode_of};

    /// The operator's opcode (standard, section 5.4.5).
    pub fn opcode(self) -> u8
        ensures { result ≡ opcode_of self }
    {
        self as u8
    }

    /// The operator of an opcode; None for that of another instruction (standard, section 5.4.5).
    #[inline(always)]
    pub fn of_opcode(op: u8) -> Option<NumOp>
        ensures named { (n : NumOp) → op ≡ opcode_of n → result ≡ Some n }
        ensures names { (n : NumOp) → result ≡ Some n → op ≡ opcode_of n }
    {
        // In the array 22 operators stand before that of 0x67, and 61 before that of 0xC0.
        match op {
            0x45..=0x5A => Some(OPERATORS[(op - 0x45) as usize]),
            0x67..=0x8A => Some(OPERATORS[(op - 0x51) as usize]),
            0xA7 => Some(NumOp::I32WrapI64),
            0xAC => Some(NumOp::I64ExtendI32S),
            0xAD => Some(NumOp::I64ExtendI32U),
            0xC0..=0xC4 => Some(OPERATORS[(op - 0x83) as usize]),
            _ => None,
        }
    }
}
