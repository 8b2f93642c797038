//! Why a program isn't set up.

use std::alloc::AllocError;
use thiserror::Error;

/// Why a program isn't set up: a line of its script, counted from 1, breaks a rule from 9 to 16, or rule 19.
#[derive(Clone, Copy, Debug, PartialEq, Eq, Error)]
pub enum RuleFault {
    #[error("out of memory")]
    Memory,
    #[error("line {line} breaks rule {rule}")]
    Rule { line: u32, rule: u8 },
}

impl From<AllocError> for RuleFault {
    ghost use Rattle.std.specs.Prelude.{◌≡◌};
    ghost use Rattle.script_setup.specs.declared.fault.RuleFault.TheVariants.{Memory};

    ghost from_gives = { λ _ fault. fault ≡ Memory };

    fn from(_error: AllocError) -> RuleFault {
        RuleFault::Memory
    }
}
