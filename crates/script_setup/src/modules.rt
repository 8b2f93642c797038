//! The prepared module in a file.

ghost use Rattle.std.specs.Prelude.{◌≡◌, ◌≢◌, ◌⊎◌, ◌≤◌, ℕ, List, Err, IfOk, IsErrOf, IsSome};
ghost use Rattle.std.specs.Result.{IfErr};
ghost use Rattle.vault_port.specs.Files.{CannotRead};
ghost use Rattle.vault_port.specs.Told.{WhereTold};
ghost use Rattle.wa_types.specs.View.{module_of};
ghost use Rattle.wasm_reader.specs.Held.{Holds};
ghost use Rattle.module_files.specs.Faults.{IsToldFault};
ghost use Rattle.script_setup.specs.Prepared.{IsContentFault, IsPrepared, IsUnprepared};

use module_files::{FileFault, read_module, valid_module};
use std::alloc::Global;
use vault_port::Vault;
use wa_types::Bounds;
use wasm_validate::Valid;

/// The prepared module in this file. No file changes.
pub fn fetch_prepared<V: Vault>(
    alloc: Global,
    vault: &mut V,
    name: &str,
) -> Result<Valid, FileFault>
    ensures prepared { IfOk result (λ valid. (bytes : List ℕ) × Holds (V.files vault.old) name.now bytes × IsPrepared bytes (module_of valid)) }
    ensures refused { IfErr result (λ fault. IsToldFault IsUnprepared (V.files vault.old) name.now fault) }
    ensures content { IfErr result IsContentFault }
    ensures read { IsErrOf result FileFault.Read
        → CannotRead (V.files vault.old) name.now (V.fetch_faults vault.old) (V.fetch_faults vault.new) }
    ensures stays { result ≢ Err FileFault.Read → V.fetch_faults vault.new ≡ V.fetch_faults vault.old }
    ensures there { IsErrOf result FileFault.Read ⊎ IsErrOf result FileFault.Memory
        ⊎ WhereTold (V.files vault.old) (λ all. IsSome (all name.now)) }
    ensures kept { V.files vault.new ≡ V.files vault.old }
    ensures faults { V.fetch_faults vault.old ≤ V.fetch_faults vault.new }
    ensures saves { V.save_faults vault.new ≡ V.save_faults vault.old }
{
    match read_module(alloc, vault, name, Bounds::prepared()) {
        Ok(module) => valid_module(alloc, module),
        Err(fault) => Err(fault),
    }
}
