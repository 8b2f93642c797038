//! Which bytes are floats (standard, sections 5.3.1 and 5.4).

ghost use Rattle.std.specs.Prelude.{◌≡◌};
ghost use Rattle.wa_types.specs.Opcodes.{is_float_op, is_float_type, within};

/// Whether this is the opcode of an instruction on floats (standard, sections 5.4.4 and 5.4.5).
#[inline(always)]
pub fn is_float_op(op: u32) -> bool
    ensures { result ≡ is_float_op op }
{
    within(0x2A, 0x2B, op)
        || within(0x38, 0x39, op)
        || within(0x43, 0x44, op)
        || within(0x5B, 0x66, op)
        || within(0x8B, 0xA6, op)
        || within(0xA8, 0xAB, op)
        || within(0xAE, 0xBF, op)
}

/// Whether this is a float type (standard, section 5.3.1).
#[inline(always)]
pub fn is_float_type(byte: u32) -> bool
    ensures { result ≡ is_float_type byte }
{
    within(0x7C, 0x7D, byte)
}

// Whether the byte is of this range.
#[inline(always)]
fn within(low: u32, high: u32, byte: u32) -> bool
    ensures { result ≡ within low high byte }
{
    low <= byte && byte <= high
}
