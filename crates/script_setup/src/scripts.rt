//! The script in a file.

ghost use Rattle.std.specs.Prelude.{◌≡◌, ◌≢◌, ◌⊎◌, ◌≤◌, ℕ, List, IfOk, IsErrOf, IsSome};
ghost use Rattle.std.specs.Result.{IfErr};
ghost use Rattle.vault_port.specs.Files.{CannotRead};
ghost use Rattle.vault_port.specs.Told.{WhereTold};
ghost use Rattle.wa_types.specs.declared.bounds.LimitKind.TheVariants.{Programs as some_programs};
ghost use Rattle.script_model.specs.Transcript.{limit};
ghost use Rattle.transcript.specs.Printing.{refusal_of};
ghost use Rattle.script_reader.specs.Views.{script_of};
ghost use Rattle.module_files.specs.Faults.{IsFaultOf, IsToldFault};
ghost use Rattle.wasm_reader.specs.Held.{Holds};
ghost use Rattle.script_setup.specs.Prepared.{IsContentFault};
ghost use Rattle.script_setup.specs.Scripts.{IsNoScript, IsScript};

use module_files::FileFault;
use script_reader::{Script, ScriptFault, read_script};
use std::alloc::Global;
use transcript::RefusalKind;
use vault_port::{FetchFault, Vault, fetch_whole};
use wa_types::LimitKind;

/// A script file is read until one byte past its limit.
const FETCH_LIMIT: u64 = 1_048_577;

/// A script has at most so many bytes.
const MOST_BYTES: usize = 1_048_576;

/// The script in this file. No file changes.
pub fn fetch_script<V: Vault>(alloc: Global, vault: &mut V, name: &str) -> Result<Script, FileFault>
    ensures script { IfOk result (λ s. (bytes : List ℕ) × Holds (V.files vault.old) name.now bytes × IsScript bytes (script_of s)) }
    ensures refused { IfErr result (λ fault. IsToldFault IsNoScript (V.files vault.old) name.now fault) }
    ensures content { IfErr result IsContentFault }
    ensures read { IsErrOf result FileFault.Read
        → CannotRead (V.files vault.old) name.now (V.fetch_faults vault.old) (V.fetch_faults vault.new) }
    ensures stays { result ≢ Err FileFault.Read → V.fetch_faults vault.new ≡ V.fetch_faults vault.old }
    ensures there { IsErrOf result FileFault.Read ⊎ IsErrOf result FileFault.Memory
        ⊎ WhereTold (V.files vault.old) (λ all. IsSome (all name.now)) }
    ensures kept { V.files vault.new ≡ V.files vault.old }
    ensures faults { V.fetch_faults vault.old ≤ V.fetch_faults vault.new }
    ensures saves { V.save_faults vault.new ≡ V.save_faults vault.old }
{
    let bytes = match fetch_whole(alloc, vault, name, FETCH_LIMIT) {
        Ok(bytes) => bytes,
        Err(FetchFault::Read) => return Err(FileFault::Read),
        Err(FetchFault::Memory) => return Err(FileFault::Memory),
    };
    script_in(alloc, &bytes)
}

// The script that these bytes are.
fn script_in(alloc: Global, bytes: &[u8]) -> Result<Script, FileFault>
    ensures script { IfOk result (λ s. IsScript bytes.now (script_of s)) }
    ensures refused { IfErr result (λ fault. IsFaultOf (IsNoScript bytes.now) fault) }
    ensures content { IfErr result IsContentFault }
{
    if MOST_BYTES < bytes.len() {
        return Err(FileFault::Refused(RefusalKind::Limit {
            what: LimitKind::Script,
            found: FETCH_LIMIT,
        }));
    }
    match read_script(alloc, bytes) {
        Ok(script) => Ok(script),
        Err(ScriptFault::Memory) => Err(FileFault::Memory),
        Err(ScriptFault::Rule { line, rule }) => Err(FileFault::Refused(RefusalKind::Script {
            line,
            rule,
        })),
        Err(ScriptFault::TooMany { found }) => Err(FileFault::Refused(too_many(found))),
    }
}

// There are so many programs.
fn too_many(found: u32) -> RefusalKind
    ensures { refusal_of result ≡ limit some_programs found }
{
    RefusalKind::Limit {
        what: LimitKind::Programs,
        found: u64::from(found),
    }
}
