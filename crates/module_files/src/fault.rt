//! Why a file's content isn't taken.

use std::alloc::AllocError;
use thiserror::Error;
use transcript::RefusalKind;

/// Why a file's content isn't taken.
#[derive(Debug, Drop, Error)]
pub enum FileFault {
    #[error("out of memory")]
    Memory,
    #[error("the file could not be read")]
    Read,
    /// What the file holds is refused.
    #[error("the file is refused")]
    Refused(RefusalKind),
}

impl From<AllocError> for FileFault {
    ghost use Rattle.std.specs.Prelude.{◌≡◌};
    ghost use Rattle.module_files.specs.declared.fault.FileFault.TheVariants.{Memory};

    ghost from_gives = { λ _ fault. fault ≡ Memory };

    fn from(_error: AllocError) -> FileFault {
        FileFault::Memory
    }
}
