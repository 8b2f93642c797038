//! The law of the round trip: what is written is read back as the same module, its runs merged and its custom sections in
//! their written order; and reading and writing makes the shortest spelling of what the bytes spell.

ghost use Rattle.std.specs.Prelude.{◌≡◌, ◌≢◌, ◌<◌, ◌≤◌, ◌^◌, ℕ, length, IfOk, Err};
ghost use Rattle.std.specs.Result.{IfErr};
ghost use Rattle.wa_types.specs.Encoding.{Enc};
ghost use Rattle.wa_types.specs.Norm.{Norm};
ghost use Rattle.wa_types.specs.Sizes.{WellFormed};
ghost use Rattle.wa_types.specs.View.{module_of};
ghost use Rattle.wasm_encode.specs.Modules.{FewLocals};
ghost use Rattle.checks.specs.Again.{IsRewritten, IsOfSource, IsOfWritten};

use bytes::BytesMut;
use std::alloc::Global;
use thiserror::Error;
use wa_types::{Bounds, Module};
use wasm_encode::{EncodeFault, encode};
use wasm_reader::{ReadFault, read};

/// Why a module was not written, or not read.
#[derive(Debug, Drop, Error)]
pub enum AgainFault {
    /// Memory is lacking.
    #[error("out of memory")]
    Memory,
    /// The module has so many bytes, more than 67,108,864.
    #[error("the module has {len} bytes")]
    TooLong { len: u64 },
    /// The bytes are refused, not for want of memory.
    #[error("the bytes are refused")]
    Refused(ReadFault),
}

impl From<ReadFault> for AgainFault {
    ghost use Rattle.std.specs.Prelude.{◌≡◌};
    ghost use Rattle.checks.specs.Again.{of_read};

    ghost from_gives = { λ fault told. told ≡ of_read fault };

    fn from(fault: ReadFault) -> AgainFault {
        match fault {
            ReadFault::Memory => AgainFault::Memory,
            ReadFault::Malformed { at } => AgainFault::Refused(ReadFault::Malformed { at }),
            ReadFault::Float { at } => AgainFault::Refused(ReadFault::Float { at }),
            ReadFault::Deep { at } => AgainFault::Refused(ReadFault::Deep { at }),
            ReadFault::Limit { what, found } => {
                AgainFault::Refused(ReadFault::Limit { what, found })
            }
        }
    }
}

impl From<EncodeFault> for AgainFault {
    ghost use Rattle.std.specs.Prelude.{◌≡◌};
    ghost use Rattle.checks.specs.Again.{of_encode};

    ghost from_gives = { λ fault told. told ≡ of_encode fault };

    fn from(fault: EncodeFault) -> AgainFault {
        match fault {
            EncodeFault::Memory => AgainFault::Memory,
            EncodeFault::TooLong { len } => AgainFault::TooLong { len },
        }
    }
}

/// The module, written and read again (standard, section 5): its adjacent runs of one type are merged, empty ones left
/// out, and its custom sections stand in their written order.
///
/// What was written is never malformed. It is refused where it passes a bound of prepared modules; `TooLong` says how
/// many bytes it would have, where they pass 67,108,864.
pub fn read_again(alloc: Global, module: &Module) -> Result<Module, AgainFault>
    requires well_formed { WellFormed (module_of «module».now) }
    requires locals { FewLocals (module_of «module».now) }
    requires fits { length (Enc (module_of «module».now)) < 2 ^ 64 }
    ensures same { IfOk result (λ r. module_of r ≡ Norm (module_of «module».now)) }
    ensures whole { (at : ℕ) → result ≢ Err (AgainFault.Refused (ReadFault.Malformed at)) }
    ensures refused { IfErr result (λ fault. IsOfWritten (Enc (module_of «module».now)) fault) }
{
    let bytes = encode(alloc, module)?;
    Ok(read(alloc, &bytes, &Bounds::prepared())?)
}

/// The shortest spelling of the module that the bytes spell, within the bounds of prepared modules. It is no longer
/// than the bytes, so it is never `TooLong`.
pub fn rewrite(alloc: Global, bytes: &[u8]) -> Result<BytesMut, AgainFault>
    ensures written { IfOk result (λ r. IsRewritten bytes.now r.items) }
    ensures short { IfOk result (λ r. length r.items ≤ length bytes.now) }
    ensures refused { IfErr result (λ fault. IsOfSource bytes.now fault) }
{
    let module = read(alloc, bytes, &Bounds::prepared())?;
    Ok(encode(alloc, &module)?)
}
