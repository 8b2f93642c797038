//! Why a text is no script.

use std::alloc::AllocError;
use thiserror::Error;

/// Why a text is no script. Lines are counted from 1.
#[derive(Clone, Copy, Debug, PartialEq, Eq, Error)]
pub enum ScriptFault {
    #[error("out of memory")]
    Memory,
    /// A line breaks a rule.
    #[error("line {line} breaks rule {rule}")]
    Rule { line: u32, rule: u8 },
    /// There are more programs than there may be.
    #[error("{found} programs are too many")]
    TooMany { found: u32 },
}

impl From<AllocError> for ScriptFault {
    ghost use Rattle.std.specs.Prelude.{◌≡◌};
    ghost use Rattle.script_reader.specs.declared.faults.ScriptFault.TheVariants.{Memory};

    ghost from_gives = { λ _ fault. fault ≡ Memory };

    fn from(_error: AllocError) -> ScriptFault {
        ScriptFault::Memory
    }
}
