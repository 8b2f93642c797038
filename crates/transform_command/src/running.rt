//! A source, rewritten to be run, without being written.

ghost use Rattle.std.specs.Prelude.{◌≡◌, ◌≢◌, ◌⊎◌, ◌≤◌, ℕ, List, IfOk, IsErrOf};
ghost use Rattle.std.specs.Result.{IfErr};
ghost use Rattle.call_graph.specs.Settings.{settings_of};
ghost use Rattle.vault_port.specs.Files.{CannotRead};
ghost use Rattle.wa_types.specs.View.{module_of};
ghost use Rattle.wasm_reader.specs.Held.{Holds};
ghost use Rattle.transform_command.specs.Manners.{plainly};
ghost use Rattle.module_files.specs.Faults.{IsToldFault};
ghost use Rattle.transform_command.specs.SourceRefusals.{IsRefusedUnwritten};
ghost use Rattle.transform_command.specs.Running.{RunsAs};

use crate::source::{rewrite_fault, source};
use call_graph::Settings;
use module_files::FileFault;
use module_rewrite::rewrite_module;
use std::alloc::Global;
use vault_port::Vault;
use wasm_validate::Valid;

/// A source as a host runs it: which of its function imports are listed, and the module, rewritten.
#[derive(Drop)]
pub struct Runnable {
    pub listed: Vec<bool>,
    pub module: Valid,
}

/// The module that this file spells, rewritten by these settings, where it is a source that can be rewritten. It isn't written, so
/// its length has no limit; and no call is tested, whatever the settings say of asserts. No file changes.
pub fn rewritten<V: Vault>(
    alloc: Global,
    vault: &mut V,
    name: &str,
    settings: &Settings,
) -> Result<Runnable, FileFault>
    ensures done { IfOk result (λ r. (bytes : List ℕ) × Holds (V.files vault.old) name.now bytes
        × RunsAs (settings_of settings.now) bytes r.listed.items (module_of r.«module»)) }
    ensures refused { IfErr result (λ fault. IsToldFault (IsRefusedUnwritten (plainly (settings_of settings.now))) (V.files vault.old) name.now fault) }
    ensures read { IsErrOf result FileFault.Read
        → CannotRead (V.files vault.old) name.now (V.fetch_faults vault.old) (V.fetch_faults vault.new) }
    ensures stays { result ≢ Err FileFault.Read → V.fetch_faults vault.new ≡ V.fetch_faults vault.old }
    ensures kept { V.files vault.new ≡ V.files vault.old }
    ensures faults { V.fetch_faults vault.old ≤ V.fetch_faults vault.new }
    ensures saves { V.save_faults vault.new ≡ V.save_faults vault.old }
{
    let valid = match source(alloc, vault, name) {
        Ok(valid) => valid,
        Err(fault) => return Err(fault),
    };
    match rewrite_module(alloc, &valid, settings) {
        Ok(made) => Ok(Runnable {
            listed: made.listed,
            module: made.module,
        }),
        Err(fault) => Err(rewrite_fault(fault)),
    }
}
