//! From the file of a module to the bytes of the written one.

ghost use Rattle.std.specs.Prelude.{◌≡◌, ◌≢◌, ◌⊎◌, ◌≤◌, ◌^◌, ℕ, List, length, count_by, Err, IfOk, IsErrOf, None, Some};
ghost use Rattle.std.specs.Result.{IfErr};
ghost use Rattle.call_graph.specs.Settings.{settings_of};
ghost use Rattle.vault_port.specs.Files.{CannotRead};
ghost use Rattle.wa_types.specs.ModuleBounds.{source_bounds};
ghost use Rattle.wa_types.specs.Encoding.{Enc};
ghost use Rattle.wa_types.specs.Sizes.{SizeRule, StrictSizeRule};
ghost use Rattle.wa_types.specs.View.{module_of};
ghost use Rattle.script_model.specs.Command.{Manner};
ghost use Rattle.wasm_reader.specs.Answers.{IsAccepted};
ghost use Rattle.local_spill.specs.Reserved.{reserved_at};
ghost use Rattle.wasm_reader.specs.Held.{Holds};
ghost use Rattle.module_files.specs.Faults.{IsFaultOf, IsToldFault};
ghost use Rattle.transform_command.specs.Manners.{EmitsBy, manner_of};
ghost use Rattle.transform_command.specs.SourceRefusals.{IsOfEmit, IsOfRewrite, IsRefusedAs, IsRefusedUnwritten, IsUnreserved};
ghost use Rattle.transform_command.specs.Sources.{HoldsValidSource, IsRewritten, IsValidSource, reserved_name};

use assert_rewrite::emit_with_asserts;
use bytes::BytesMut;
use call_graph::Settings;
use local_spill::{ReservedAt, reserved};
use module_files::{FileFault, read_module, valid_module};
use module_rewrite::{EmitFault, Emitted, RewriteFault, emit_module};
use std::alloc::{AllocError, Global};
use transcript::RefusalKind;
use vault_port::Vault;
use wa_types::{Bounds, LimitKind, Module, Name};
use wasm_validate::Valid;

/// What is written: the module's bytes, how many functions the source defines, and how many of them may pause.
#[derive(Drop)]
pub struct Written {
    pub functions: usize,
    pub instrumented: usize,
    pub text: BytesMut,
}

/// The module that this file spells, rewritten by these settings, where it is an accepted source. No file changes.
pub fn rewrite<V: Vault>(
    alloc: Global,
    vault: &mut V,
    name: &str,
    settings: &Settings,
) -> Result<Written, FileFault>
    ensures done { IfOk result (λ r. (bytes : List ℕ) × Holds (V.files vault.old) name.now bytes
        × IsRewritten (manner_of settings.now) bytes r.functions r.instrumented r.text.items) }
    ensures refused { IfErr result (λ fault. IsToldFault (IsRefusedAs (manner_of settings.now)) (V.files vault.old) name.now fault) }
    ensures read { IsErrOf result FileFault.Read
        → CannotRead (V.files vault.old) name.now (V.fetch_faults vault.old) (V.fetch_faults vault.new) }
    ensures stays { result ≢ Err FileFault.Read → V.fetch_faults vault.new ≡ V.fetch_faults vault.old }
    ensures kept { V.files vault.new ≡ V.files vault.old }
    ensures faults { V.fetch_faults vault.old ≤ V.fetch_faults vault.new }
    ensures saves { V.save_faults vault.new ≡ V.save_faults vault.old }
{
    let valid = match source(alloc, vault, name) {
        Ok(valid) => valid,
        Err(fault) => return Err(fault),
    };
    let functions = valid.module().funcs.len();
    let emitted = match emit(alloc, valid, settings) {
        Ok(emitted) => emitted,
        Err(fault) => return Err(emit_fault(fault)),
    };
    let instrumented = told_count(&emitted.instrumented);
    Ok(Written {
        functions,
        instrumented,
        text: emitted.text,
    })
}

// The bytes of a valid source as it is rewritten, with asserts or without.
fn emit(alloc: Global, valid: Valid, settings: &Settings) -> Result<Emitted, EmitFault>
    requires sizes { StrictSizeRule (module_of valid) }
    requires free { reserved_at (module_of valid) ≡ None }
    requires few { length (module_of valid).funcs ≤ 100000 }
    requires short { length (Enc (module_of valid)) ≤ 2 ^ 36 }
    ensures { EmitsBy settings.now.asserts (module_of valid) (settings_of settings.now) result }
{
    if settings.asserts {
        return emit_with_asserts(alloc, &valid, settings);
    }
    emit_module(alloc, valid, settings)
}

/// The module that this file spells, where it is a valid source. No file changes.
pub(crate) fn source<V: Vault>(alloc: Global, vault: &mut V, name: &str) -> Result<Valid, FileFault>
    ensures source { IfOk result (λ r. HoldsValidSource (V.files vault.old) name.now (module_of r)) }
    ensures refused { IfErr result (λ fault. (how : Manner) → IsToldFault (IsRefusedUnwritten how) (V.files vault.old) name.now fault) }
    ensures read { IsErrOf result FileFault.Read
        → CannotRead (V.files vault.old) name.now (V.fetch_faults vault.old) (V.fetch_faults vault.new) }
    ensures stays { result ≢ Err FileFault.Read → V.fetch_faults vault.new ≡ V.fetch_faults vault.old }
    ensures kept { V.files vault.new ≡ V.files vault.old }
    ensures faults { V.fetch_faults vault.old ≤ V.fetch_faults vault.new }
    ensures saves { V.save_faults vault.new ≡ V.save_faults vault.old }
{
    match read_module(alloc, vault, name, Bounds::source()) {
        Ok(module) => valid_source(alloc, module),
        Err(fault) => Err(fault),
    }
}

// A module that was read, where it is a valid source.
fn valid_source(alloc: Global, module: Module) -> Result<Valid, FileFault>
    requires { SizeRule (module_of «module») }
    ensures source { (bytes : List ℕ) → IsAccepted source_bounds bytes (module_of «module») → IfOk result (λ r. IsValidSource bytes (module_of r)) }
    ensures refused { (bytes : List ℕ) → IsAccepted source_bounds bytes (module_of «module») → IfErr result (λ fault. (how : Manner) → IsFaultOf (IsRefusedUnwritten how bytes) fault) }
    ensures no_read { result ≢ Err FileFault.Read }
{
    if let Some(at) = reserved(&module) {
        let name = name_at(alloc, &module, at)?;
        return Err(FileFault::Refused(RefusalKind::Reserved { name }));
    }
    valid_module(alloc, module)
}

/// Why a valid source isn't rewritten; it has no reserved name.
pub(crate) fn rewrite_fault(fault: RewriteFault) -> FileFault
    requires { IsUnreserved fault }
    ensures { IsOfRewrite fault result }
{
    match fault {
        RewriteFault::Memory => FileFault::Memory,
        RewriteFault::Locals { count, .. } => FileFault::Refused(locals_limit(count)),
        RewriteFault::Reserved(_) => unreachable!(),
    }
}

// Why the rewritten module of a valid source isn't written.
fn emit_fault(fault: EmitFault) -> FileFault
    ensures { IsOfEmit fault result }
{
    match fault {
        EmitFault::Memory => FileFault::Memory,
        EmitFault::Locals { count, .. } => FileFault::Refused(locals_limit(count)),
        EmitFault::TooLong { len } => FileFault::Refused(RefusalKind::Limit {
            what: LimitKind::Output,
            found: len,
        }),
    }
}

// A function has so many locals.
fn locals_limit(count: u32) -> RefusalKind
    ensures { result ≡ RefusalKind.Limit LimitKind.Locals count }
{
    RefusalKind::Limit {
        what: LimitKind::Locals,
        found: u64::from(count),
    }
}

fn told_count(told: &[bool]) -> usize
    ensures { result ≡ count_by (λ b. b) told.now }
{
    told.iter().filter(|told| **told).count()
}

// The name at which a module is reserved: an import's joined name, or an export's.
fn name_at(alloc: Global, module: &Module, at: ReservedAt) -> Result<Name, AllocError>
    requires { reserved_at (module_of «module».now) ≡ Some at }
    ensures { IfOk result (λ name. name ≡ reserved_name (module_of «module».now) at) }
{
    match at {
        ReservedAt::Import(index) => {
            let import = &module.imports[index as usize];
            let (first, second) = (import.module.as_str(), import.base.as_str());
            let joined = format!(in alloc; "{first}.{second}")?;
            Name::new(alloc, joined.as_str())
        }
        ReservedAt::Export(index) => {
            Name::new(alloc, module.exports[index as usize].name.as_str())
        }
    }
}
