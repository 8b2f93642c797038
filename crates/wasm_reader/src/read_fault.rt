//! Why no module was read.

use std::alloc::AllocError;
use thiserror::Error;
use wa_types::LimitKind;

/// Why no module was read.
#[derive(Clone, Copy, Debug, PartialEq, Eq, Error)]
pub enum ReadFault {
    /// Want of memory.
    #[error("out of memory")]
    Memory,
    /// The bytes spell no module. They may begin one up to this offset, or are cut short there.
    #[error("malformed at {at}")]
    Malformed { at: u64 },
    /// The first float type or float opcode stands at this offset.
    #[error("float at {at}")]
    Float { at: u64 },
    /// The first opcode that opens a level past the bound on nesting stands at this offset.
    #[error("limit nesting at {at}")]
    Deep { at: u64 },
    /// A limit is passed, by this number.
    #[error("limit {what:?} passed with {found}")]
    Limit { what: LimitKind, found: u64 },
}

impl From<AllocError> for ReadFault {
    ghost use Rattle.std.specs.Prelude.{◌≡◌};
    ghost use Rattle.wasm_reader.specs.declared.read_fault.ReadFault.TheVariants.{Memory};

    ghost from_gives = { λ _ fault. fault ≡ Memory };

    fn from(_error: AllocError) -> ReadFault {
        ReadFault::Memory
    }
}
