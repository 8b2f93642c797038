//! A module in one file, rewritten into another.

ghost use Rattle.std.specs.Prelude.{◌≡◌, ◌≢◌, ◌⊎◌, ◌≤◌, length, IfOk, IsErrOf, OnOk, OnErr, IsSome};
ghost use Rattle.vault_port.specs.Counts.{FailsOnce};
ghost use Rattle.vault_port.specs.Files.{bytes_of, CannotRead};
ghost use Rattle.vault_port.specs.Told.{WhereTold, Becomes};
ghost use Rattle.transform_command.specs.Refusals.{IsOfSource, IsToldRefusal};
ghost use Rattle.transform_command.specs.Manners.{manner_of};
ghost use Rattle.transform_command.specs.Sources.{IsTransformed};
ghost use Rattle.transform_command.specs.Transforms.{HoldsSource, IsCount, IsCutShort};
ghost use Rattle.std.specs.Result.{IfErr};

use crate::source::rewrite;
use call_graph::Settings;
use module_files::FileFault;
use std::alloc::Global;
use thiserror::Error;
use transcript::RefusalKind;
use vault_port::{SaveFault, Vault, save_whole};

/// Why a module was not rewritten into a file.
#[derive(Debug, Drop, Error)]
pub enum TransformFault {
    #[error("out of memory")]
    Memory,
    #[error("the module could not be read")]
    Read,
    #[error("the module is refused")]
    Refused(RefusalKind),
    #[error("the module could not be written")]
    Write,
}

/// What was written: how many functions the source defines, how many of them may pause, and how many bytes the file holds.
#[derive(Clone, Copy, Debug, PartialEq, Eq)]
pub struct Done {
    pub functions: usize,
    pub instrumented: usize,
    pub bytes: usize,
}

/// Reads the module in `input`, and writes it, rewritten by these settings, into `output`. After `Read` and `Refused`
/// no file is changed; after `Memory` and `Write` the output may hold a first part of what it would hold.
pub fn transform<V: Vault>(
    alloc: Global,
    vault: &mut V,
    settings: &Settings,
    input: &str,
    output: &str,
) -> Result<Done, TransformFault>
    ensures done { OnOk result (Becomes (V.files vault.old) (V.files vault.new)
        (IsTransformed (manner_of settings.now) input.now output.now)) }
    ensures counts { IfOk result (λ d. WhereTold (V.files vault.old) (λ all.
        IsCount (manner_of settings.now) (bytes_of all input.now) d.functions d.instrumented d.bytes)) }
    ensures bytes { IfOk result (λ d. WhereTold (V.files vault.new) (λ all. d.bytes ≡ length (bytes_of all output.now))) }

    ensures read { IsErrOf result TransformFault.Read
        → CannotRead (V.files vault.old) input.now (V.fetch_faults vault.old) (V.fetch_faults vault.new) }
    ensures fetches_stay { result ≢ Err TransformFault.Read → V.fetch_faults vault.new ≡ V.fetch_faults vault.old }
    ensures refused { IfErr result (λ fault. IsToldRefusal (manner_of settings.now) (V.files vault.old) input.now fault) }
    ensures there { IsErrOf result TransformFault.Read ⊎ IsErrOf result TransformFault.Memory
        ⊎ WhereTold (V.files vault.old) (λ all. IsSome (all input.now)) }
    ensures source { IsErrOf result TransformFault.Write → WhereTold (V.files vault.old) (λ all.
        HoldsSource (manner_of settings.now) (bytes_of all input.now)) }
    ensures write { IsErrOf result TransformFault.Write
        → FailsOnce (V.save_faults vault.old) (V.save_faults vault.new) }
    ensures saves_stay { result ≢ Err TransformFault.Write → V.save_faults vault.new ≡ V.save_faults vault.old }
    ensures kept { IsErrOf result TransformFault.Read → V.files vault.new ≡ V.files vault.old }
    ensures refused_kept { IfErr result (λ fault. IsOfSource fault → V.files vault.new ≡ V.files vault.old) }
    ensures cut { OnErr result (Becomes (V.files vault.old) (V.files vault.new)
        (IsCutShort (manner_of settings.now) input.now output.now)) }

    ensures fetch_faults { V.fetch_faults vault.old ≤ V.fetch_faults vault.new }
    ensures save_faults { V.save_faults vault.old ≤ V.save_faults vault.new }
{
    let written = match rewrite(alloc, vault, input, settings) {
        Ok(written) => written,
        Err(FileFault::Refused(kind)) => return Err(TransformFault::Refused(kind)),
        Err(FileFault::Read) => return Err(TransformFault::Read),
        Err(FileFault::Memory) => return Err(TransformFault::Memory),
    };
    match save_whole(vault, output, &written.text) {
        Ok(()) => Ok(Done {
            functions: written.functions,
            instrumented: written.instrumented,
            bytes: written.text.len(),
        }),
        Err(SaveFault::Write) => Err(TransformFault::Write),
        Err(SaveFault::Memory) => Err(TransformFault::Memory),
    }
}
