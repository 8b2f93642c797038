//! Writes modules as the bytes of a file (standard, section 5).
//!
//! `encode` writes every module in the one form that `Enc` of `wa_types` defines: each number in its shortest spelling, known
//! sections in rising id with those of no entries left out, adjacent runs of locals merged, and each custom section behind the known
//! sections of the ids up to its place.
//!
//! The law: the answer is exactly `Enc` of the module, or `TooLong` exactly where that passes 67,108,864 bytes, or `Memory`.
//! `encode_around` has the same law; it writes a module around entries of the code section that were put beforehand (`CodeEntries`), so
//! that its functions needn't be in memory together, and no more bytes than a module may have.
//!
//! Whatever is written can be measured first, without memory: for each part its length and its bytes stand side by side, and the one
//! is the length of the other. So nothing is written of a module that is too long, and every size stands in front of its content
//! without a byte being moved. The work is linear in the module, and no recursion is deeper than its nesting. A module isn't
//! checked: one that isn't valid is written too.
//!
//! - `numbers`, `entry`: numbers, sizes and names; how an entry of a vector is written, so that each vector is proved once.
//! - `types`, `code`, `locals`: types, instructions and expressions, declared locals.
//! - `entries`, `sections`, `held`: entries of the sections with code and data; sections, custom ones too; entries that are put beforehand.
//! - `module`, `around`: whole modules.
#![tactic(auto)]

mod around;
mod code;
mod entries;
mod entry;
mod held;
mod locals;
mod module;
mod numbers;
mod sections;
mod types;

ghost use Rattle.std.specs.Prelude.{◌≡◌, ◌<◌, ◌≤◌, ◌^◌, ◌↔◌, length, IfOk, ℕ, Err};
ghost use Rattle.wa_types.specs.View.{module_of};
ghost use Rattle.wa_types.specs.Encoding.{Enc};
ghost use Rattle.wasm_encode.specs.Modules.{FewLocals};

use crate::module::{module_len, put_module};
pub use around::encode_around;
use bytes::BytesMut;
pub use held::CodeEntries;
use std::alloc::{AllocError, Global};
use thiserror::Error;
use wa_types::Module;

/// The most bytes that a module is written in.
const LONGEST: u64 = 67_108_864;

/// Why no bytes were written.
#[derive(Debug, Drop, Error)]
pub enum EncodeFault {
    /// Memory is lacking.
    #[error("out of memory")]
    Memory,
    /// The module has so many bytes, more than 67,108,864.
    #[error("the module has {len} bytes")]
    TooLong { len: u64 },
}

impl From<AllocError> for EncodeFault {
    ghost use Rattle.std.specs.Prelude.{◌≡◌};
    ghost use Rattle.wasm_encode.specs.declared.EncodeFault.TheVariants.{Memory};

    ghost from_gives = { λ _ fault. fault ≡ Memory };

    fn from(_fault: AllocError) -> EncodeFault {
        EncodeFault::Memory
    }
}

/// The bytes that the module is written as.
///
/// `TooLong` says how many they are where they pass 67,108,864; `Memory` may come otherwise.
pub fn encode(alloc: Global, module: &Module) -> Result<BytesMut, EncodeFault>
    requires locals { FewLocals (module_of «module».now) }
    requires fits { length (Enc (module_of «module».now)) < 2 ^ 64 }
    ensures ok { IfOk result (λ bytes. bytes.items ≡ Enc (module_of «module».now)) }
    ensures short { IfOk result (λ _. length (Enc (module_of «module».now)) ≤ 67108864) }
    ensures too_long { (len : ℕ) → (result ≡ Err (EncodeFault.TooLong len))
        ↔ ((67108864 < length (Enc (module_of «module».now))) × (len ≡ length (Enc (module_of «module».now)))) }
{
    let len = module_len(module);
    if len > LONGEST {
        return Err(EncodeFault::TooLong { len });
    }
    let mut out = BytesMut::with_capacity(alloc, len as usize)?;
    put_module(&mut out, module)?;
    Ok(out)
}
