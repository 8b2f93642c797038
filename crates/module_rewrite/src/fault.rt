//! Why a module wasn't rewritten.

use func_rewrite::FlatFault;
use local_spill::ReservedAt;
use std::alloc::AllocError;
use thiserror::Error;

/// Why a module wasn't rewritten.
#[derive(Debug, Drop, Error)]
pub enum RewriteFault {
    #[error("out of memory")]
    Memory,
    /// The function of this index would have so many parameters and locals: more than 50,000.
    #[error("{count} locals in function {func}")]
    Locals { func: u32, count: u32 },
    #[error("the module has a reserved name")]
    Reserved(ReservedAt),
}

impl From<AllocError> for RewriteFault {
    ghost use Rattle.std.specs.Prelude.{◌≡◌};
    ghost use Rattle.module_rewrite.specs.declared.fault.RewriteFault.TheVariants.{Memory};

    ghost from_gives = { λ _ fault. fault ≡ Memory };

    fn from(_error: AllocError) -> RewriteFault {
        RewriteFault::Memory
    }
}

impl From<FlatFault> for RewriteFault {
    ghost use Rattle.std.specs.Prelude.{◌≡◌};
    ghost use Rattle.module_rewrite.specs.Faults.{of_flat};

    ghost from_gives = { λ f fault. fault ≡ of_flat f };

    fn from(fault: FlatFault) -> RewriteFault {
        match fault {
            FlatFault::Memory => RewriteFault::Memory,
            FlatFault::Locals { func, count } => RewriteFault::Locals { func, count },
        }
    }
}
