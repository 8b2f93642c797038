//! Why nothing was built of a module.

use std::alloc::{AllocError, AllocFailed};
use thiserror::Error;
use wasm_grammar::NotSpelled;

/// Why nothing was built.
#[derive(Clone, Copy, Debug, PartialEq, Eq, Error)]
pub enum BuildFault {
    /// Want of memory.
    #[error("out of memory")]
    Memory,
    /// The bytes don't spell a module.
    #[error("not spelled")]
    NotSpelled,
}

impl From<AllocError> for BuildFault {
    ghost use Rattle.std.specs.Prelude.{◌≡◌};
    ghost use Rattle.wasm_build.specs.declared.build_types.BuildFault.TheVariants.{Memory};

    ghost from_gives = { λ _ fault. fault ≡ Memory };

    fn from(_error: AllocError) -> BuildFault {
        BuildFault::Memory
    }
}

impl<T> From<AllocFailed<T>> for BuildFault
where
    T: Drop,
{
    ghost use Rattle.std.specs.Prelude.{◌≡◌};
    ghost use Rattle.wasm_build.specs.declared.build_types.BuildFault.TheVariants.{Memory};

    ghost from_gives = { λ _ fault. fault ≡ Memory };

    fn from(_error: AllocFailed<T>) -> BuildFault {
        BuildFault::Memory
    }
}

impl From<NotSpelled> for BuildFault {
    fn from(_error: NotSpelled) -> BuildFault {
        BuildFault::NotSpelled
    }
}
