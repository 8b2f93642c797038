//! Why no snapshot was read.

use std::alloc::AllocError;
use thiserror::Error;

/// Why no snapshot was read.
#[derive(Clone, Copy, Debug, PartialEq, Eq, Error)]
pub enum SnapFault {
    #[error("out of memory")]
    Memory,
    /// The bytes spell no snapshot.
    #[error("no snapshot")]
    Refused,
}

impl From<AllocError> for SnapFault {
    ghost use Rattle.std.specs.Prelude.{◌≡◌};
    ghost use Rattle.snapshot_store.specs.declared.fault.SnapFault.TheVariants.{Memory};

    ghost from_gives = { λ _ fault. fault ≡ Memory };

    fn from(_error: AllocError) -> SnapFault {
        SnapFault::Memory
    }
}
