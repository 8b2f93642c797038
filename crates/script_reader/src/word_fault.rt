//! Why a line says nothing.

use std::alloc::AllocError;
use thiserror::Error;

/// Why a line says nothing: memory is wanting, or it breaks a rule of 1 to 4.
#[derive(Clone, Copy, Debug, Error)]
pub enum LineFault {
    #[error("out of memory")]
    Memory,
    #[error("rule {0}")]
    Rule(u8),
}

impl From<AllocError> for LineFault {
    ghost use Rattle.std.specs.Prelude.{◌≡◌};
    ghost use Rattle.script_reader.specs.declared.word_fault.LineFault.TheVariants.{Memory};

    ghost from_gives = { λ _ fault. fault ≡ Memory };

    fn from(_error: AllocError) -> LineFault {
        LineFault::Memory
    }
}
