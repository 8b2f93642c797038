//! Modules in files.

ghost use Rattle.std.specs.Prelude.{◌≡◌, ◌≢◌, ◌⊎◌, ◌≤◌, ℕ, List, IfOk, IsErrOf};
ghost use Rattle.std.specs.Result.{IfErr};
ghost use Rattle.vault_port.specs.Files.{CannotRead};
ghost use Rattle.wa_types.specs.ModuleBounds.{ModuleBounds};
ghost use Rattle.wa_types.specs.Sizes.{SizeRule};
ghost use Rattle.wa_types.specs.Validity.{Valid as IsValid};
ghost use Rattle.wa_types.specs.View.{module_of};
ghost use Rattle.wasm_reader.specs.Answers.{IsRefused};
ghost use Rattle.wasm_reader.specs.Held.{HoldsModule};
ghost use Rattle.module_files.specs.Faults.{IsFaultOf, IsInvalid, IsToldFault, IsUnread};

use crate::fault::FileFault;
use std::alloc::Global;
use transcript::RefusalKind;
use vault_port::Vault;
use wa_types::{Bounds, Module};
use wasm_reader::{ModuleFault, ReadFault, read_file};
use wasm_validate::{Valid, ValidateFault, validate};

/// The module that this file spells, within these bounds, or why there is none. No file changes.
pub fn read_module<V: Vault>(
    alloc: Global,
    vault: &mut V,
    name: &str,
    bounds: Bounds,
) -> Result<Module, FileFault>
    ensures ok { IfOk result (λ r. HoldsModule bounds (V.files vault.old) name.now (module_of r)) }
    ensures sizes { IfOk result (λ r. SizeRule (module_of r)) }
    ensures refused { IfErr result (λ fault. IsToldFault (IsUnread bounds) (V.files vault.old) name.now fault) }
    ensures read { IsErrOf result FileFault.Read
        → CannotRead (V.files vault.old) name.now (V.fetch_faults vault.old) (V.fetch_faults vault.new) }
    ensures stays { result ≢ Err FileFault.Read → V.fetch_faults vault.new ≡ V.fetch_faults vault.old }
    ensures kept { V.files vault.new ≡ V.files vault.old }
    ensures faults { V.fetch_faults vault.old ≤ V.fetch_faults vault.new }
    ensures saves { V.save_faults vault.new ≡ V.save_faults vault.old }
{
    match read_file(alloc, vault, name, bounds) {
        Ok(module) => Ok(module),
        Err(ModuleFault::Memory) => Err(FileFault::Memory),
        Err(ModuleFault::Read) => Err(FileFault::Read),
        Err(ModuleFault::Refused(fault)) => Err(refused(fault)),
    }
}

// Why a file is refused that was read.
fn refused(fault: ReadFault) -> FileFault
    ensures told { (b : ModuleBounds) (bytes : List ℕ) → IsRefused b bytes fault → IsFaultOf (IsUnread b bytes) result }
    ensures no_read { result ≢ FileFault.Read }
{
    match fault {
        ReadFault::Memory => FileFault::Memory,
        ReadFault::Malformed { at } => FileFault::Refused(RefusalKind::Malformed { at }),
        ReadFault::Float { at } => FileFault::Refused(RefusalKind::Float { at }),
        ReadFault::Deep { at } => FileFault::Refused(RefusalKind::Nesting { at }),
        ReadFault::Limit { what, found } => FileFault::Refused(RefusalKind::Limit { what, found }),
    }
}

/// A module that was read, where it is valid, or its first fault.
pub fn valid_module(alloc: Global, module: Module) -> Result<Valid, FileFault>
    requires { SizeRule (module_of «module») }
    ensures valid { IfOk result (λ valid. (valid ≡ «module») × IsValid (module_of valid)) }
    ensures refused { IfErr result (λ fault. IsFaultOf (IsInvalid (module_of «module»)) fault) }
    ensures no_read { result ≢ Err FileFault.Read }
{
    match validate(alloc, module) {
        Ok(valid) => Ok(valid),
        Err(ValidateFault::Memory) => Err(FileFault::Memory),
        Err(ValidateFault::Invalid { func, rule, at }) => {
            Err(FileFault::Refused(RefusalKind::Invalid { func, rule, at }))
        }
    }
}
