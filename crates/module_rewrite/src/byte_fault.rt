//! Why the bytes of a rewritten module weren't written.

use func_rewrite::FlatFault;
use std::alloc::AllocError;
use thiserror::Error;
use wasm_encode::EncodeFault;

/// Why the bytes of a rewritten module weren't written.
#[derive(Debug, Drop, Error)]
pub enum EmitFault {
    #[error("out of memory")]
    Memory,
    /// The function of this index would have so many parameters and locals: more than 50,000.
    #[error("{count} locals in function {func}")]
    Locals { func: u32, count: u32 },
    /// The module would have so many bytes, more than 67,108,864.
    #[error("the module has {len} bytes")]
    TooLong { len: u64 },
}

impl From<AllocError> for EmitFault {
    ghost use Rattle.std.specs.Prelude.{◌≡◌};
    ghost use Rattle.module_rewrite.specs.declared.byte_fault.EmitFault.TheVariants.{Memory};

    ghost from_gives = { λ _ fault. fault ≡ Memory };

    fn from(_error: AllocError) -> EmitFault {
        EmitFault::Memory
    }
}

impl From<FlatFault> for EmitFault {
    ghost use Rattle.std.specs.Prelude.{◌≡◌};
    ghost use Rattle.module_rewrite.specs.ByteFaults.{of_flat};

    ghost from_gives = { λ f fault. fault ≡ of_flat f };

    fn from(fault: FlatFault) -> EmitFault {
        match fault {
            FlatFault::Memory => EmitFault::Memory,
            FlatFault::Locals { func, count } => EmitFault::Locals { func, count },
        }
    }
}

impl From<EncodeFault> for EmitFault {
    ghost use Rattle.std.specs.Prelude.{◌≡◌};
    ghost use Rattle.module_rewrite.specs.ByteFaults.{of_encode};

    ghost from_gives = { λ e fault. fault ≡ of_encode e };

    fn from(fault: EncodeFault) -> EmitFault {
        match fault {
            EncodeFault::Memory => EmitFault::Memory,
            EncodeFault::TooLong { len } => EmitFault::TooLong { len },
        }
    }
}
