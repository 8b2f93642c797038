//! What follows an opcode (standard, sections 5.3.1 and 5.4).

ghost use Rattle.std.specs.Prelude.{◌≡◌};
ghost use Rattle.wa_types.specs.Opcodes.{follows};
ghost use Rattle.wasm_grammar.specs.Forms.{follows_of};

use wa_types::LAST_NUMERIC;

/// What follows an opcode that is no construct's and no end (standard, sections 5.4.1 to 5.4.5).
#[derive(Clone, Copy, Drop)]
pub enum ImmediateForm {
    Nothing,
    /// One zero byte.
    ZeroByte,
    Index,
    /// An index, and a zero byte.
    IndexAndZero,
    /// An alignment exponent, and an offset.
    Access,
    /// Labels, and a last one.
    Labels,
    /// A signed number of 32 bits.
    Constant32,
    /// A signed number of 64 bits.
    Constant64,
    /// The four bytes of a float.
    Float4,
    /// The eight bytes of a float.
    Float8,
    /// The number of a copy or a fill of memory, and its zero bytes.
    Bulk,
}

/// What follows this opcode.
#[tactic(auto, using(crate::proofs::OpcodeRows::row_numeric))]
#[inline(always)]
pub fn immediate_form(op: u8) -> Option<ImmediateForm>
    ensures { follows_of result ≡ follows op }
{
    match op {
        0x00..=0x01 => Some(ImmediateForm::Nothing),
        0x0C..=0x0D => Some(ImmediateForm::Index),
        0x0E => Some(ImmediateForm::Labels),
        0x0F => Some(ImmediateForm::Nothing),
        0x10 => Some(ImmediateForm::Index),
        0x11 => Some(ImmediateForm::IndexAndZero),
        0x1A..=0x1B => Some(ImmediateForm::Nothing),
        0x20..=0x24 => Some(ImmediateForm::Index),
        0x28..=0x3E => Some(ImmediateForm::Access),
        0x3F..=0x40 => Some(ImmediateForm::ZeroByte),
        0x41 => Some(ImmediateForm::Constant32),
        0x42 => Some(ImmediateForm::Constant64),
        0x43 => Some(ImmediateForm::Float4),
        0x44 => Some(ImmediateForm::Float8),
        0x45..=LAST_NUMERIC => Some(ImmediateForm::Nothing),
        0xFC => Some(ImmediateForm::Bulk),
        _ => None,
    }
}
