//! Why a file gave no module.

use crate::read_fault::ReadFault;
use std::alloc::AllocError;
use thiserror::Error;

/// Why a file gave no module.
#[derive(Clone, Copy, Debug, PartialEq, Eq, Error)]
pub enum ModuleFault {
    #[error("out of memory")]
    Memory,
    #[error("the file could not be read")]
    Read,
    /// What the file holds is refused.
    #[error("the file is refused")]
    Refused(ReadFault),
}

impl From<AllocError> for ModuleFault {
    ghost use Rattle.std.specs.Prelude.{◌≡◌};
    ghost use Rattle.wasm_reader.specs.declared.fault.ModuleFault.TheVariants.{Memory};

    ghost from_gives = { λ _ fault. fault ≡ Memory };

    fn from(_error: AllocError) -> ModuleFault {
        ModuleFault::Memory
    }
}
