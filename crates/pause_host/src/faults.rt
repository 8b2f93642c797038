//! Why no program was put back.

use std::alloc::AllocError;
use thiserror::Error;

/// Why no program was put back at a pause.
#[derive(Clone, Copy, Debug, PartialEq, Eq, Error)]
pub enum ThawFault {
    #[error("out of memory")]
    Memory,
    /// The parts of the pause don't fit the plan.
    #[error("parts that don't fit")]
    Unfit,
}

impl From<AllocError> for ThawFault {
    ghost use Rattle.std.specs.Prelude.{◌≡◌};
    ghost use Rattle.pause_host.specs.declared.faults.ThawFault.TheVariants.{Memory};

    ghost from_gives = { λ _ fault. fault ≡ Memory };

    fn from(_error: AllocError) -> ThawFault {
        ThawFault::Memory
    }
}
