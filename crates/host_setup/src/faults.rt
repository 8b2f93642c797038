//! Why a program can't run over its module.

use std::alloc::AllocError;
use thiserror::Error;

/// Why a program can't run over its module, in the order in which faults are looked for.
#[derive(Clone, Copy, Debug, PartialEq, Eq, Error)]
pub enum SetupFault {
    #[error("out of memory")]
    Memory,
    /// The area isn't aligned to 4, is shorter than 8 bytes, or isn't inside the memory's declared minimum.
    #[error("bad area")]
    AreaBad,
    /// The first of the five that isn't an exported defined function of its type, by its number from 0.
    #[error("missing export {name}")]
    NoExports { name: u8 },
    /// The first entry that names no exported function, or one of the five.
    #[error("entry {entry} is missing")]
    EntryMissing { entry: u32 },
    /// The first entry of an imported function.
    #[error("entry {entry} is imported")]
    EntryIsImport { entry: u32 },
    /// The first entry whose arguments aren't of its function's types.
    #[error("entry {entry} has arguments of other types")]
    ArgTypes { entry: u32 },
}

impl From<AllocError> for SetupFault {
    ghost use Rattle.std.specs.Prelude.{◌≡◌};
    ghost use Rattle.host_setup.specs.declared.faults.SetupFault.TheVariants.{Memory};

    ghost from_gives = { λ _ fault. fault ≡ Memory };

    fn from(_error: AllocError) -> SetupFault {
        SetupFault::Memory
    }
}
