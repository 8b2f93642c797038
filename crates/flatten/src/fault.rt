//! Why a module wasn't flattened.

use std::alloc::AllocError;
use thiserror::Error;

/// Why a module wasn't flattened.
#[derive(Clone, Copy, Debug, PartialEq, Eq, Error)]
pub enum FlatFault {
    #[error("out of memory")]
    Memory,
    /// The function of this index would have so many parameters and locals, rewritten: more than 50,000.
    #[error("{count} locals in function {func}")]
    Locals { func: u32, count: u32 },
}

impl From<AllocError> for FlatFault {
    ghost use Rattle.std.specs.Prelude.{◌≡◌};
    ghost use Rattle.flatten.specs.declared.fault.FlatFault.TheVariants.{Memory};

    ghost from_gives = { λ _ fault. fault ≡ Memory };

    fn from(_error: AllocError) -> FlatFault {
        FlatFault::Memory
    }
}
