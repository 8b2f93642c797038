//! A generated module, written into a file.

ghost use Rattle.std.specs.Prelude.{◌≡◌, ◌≢◌, ◌≤◌, length, IfOk, IsErrOf, OnErr, OnOk};
ghost use Rattle.vault_port.specs.Counts.{FailsOnce};
ghost use Rattle.vault_port.specs.Files.{ChangesOnly, HoldsFrontAtMost};
ghost use Rattle.vault_port.specs.Told.{Becomes};
ghost use Rattle.wa_types.specs.Encoding.{Enc};
ghost use Rattle.wa_types.specs.View.{module_of};
ghost use Rattle.wasm_encode.specs.Modules.{FewLocals};

use std::alloc::{AllocError, Global};
use thiserror::Error;
use vault_port::{SaveFault, Vault, save_whole};
use wa_types::Module;
use wasm_encode::{EncodeFault, encode};

/// Why there are no lines to print.
#[derive(Clone, Copy, Debug, PartialEq, Eq, Error)]
pub(crate) enum GenFault {
    #[error("out of memory")]
    Memory,
    #[error("the module could not be written")]
    Write,
}

impl From<AllocError> for GenFault {
    ghost use Rattle.std.specs.Prelude.{◌≡◌};
    ghost use Rattle.asyncify_app.specs.declared.writing.GenFault.TheVariants.{Memory};

    ghost from_gives = { λ _ fault. fault ≡ Memory };

    fn from(_error: AllocError) -> GenFault {
        GenFault::Memory
    }
}

/// Writes a module that isn't too long into a file. Answers how many bytes it has. After an error the file is as before, or
/// holds some first bytes of it.
pub(crate) fn write_module<V: Vault>(
    alloc: Global,
    vault: &mut V,
    module: &Module,
    output: &str,
) -> Result<usize, GenFault>
    requires locals { FewLocals (module_of «module».now) }
    requires short { length (Enc (module_of «module».now)) ≤ 67108864 }
    ensures bytes { IfOk result (λ bytes. bytes ≡ length (Enc (module_of «module».now))) }
    ensures write { IsErrOf result GenFault.Write → FailsOnce (V.save_faults vault.old) (V.save_faults vault.new) }
    ensures stays { result ≢ Err GenFault.Write → V.save_faults vault.new ≡ V.save_faults vault.old }
    ensures done { OnOk result (Becomes (V.files vault.old) (V.files vault.new) (ChangesOnly output.now (Enc (module_of «module».now)))) }
    ensures cut { OnErr result (Becomes (V.files vault.old) (V.files vault.new) (HoldsFrontAtMost output.now (Enc (module_of «module».now)))) }
    ensures fetch_faults { V.fetch_faults vault.new ≡ V.fetch_faults vault.old }
    ensures save_faults { V.save_faults vault.old ≤ V.save_faults vault.new }
{
    let text = match encode(alloc, module) {
        Ok(text) => text,
        Err(EncodeFault::Memory) => return Err(GenFault::Memory),
        Err(EncodeFault::TooLong { .. }) => unreachable!(),
    };
    match save_whole(vault, output, &text) {
        Ok(()) => Ok(text.len()),
        Err(SaveFault::Write) => Err(GenFault::Write),
        Err(SaveFault::Memory) => Err(GenFault::Memory),
    }
}
