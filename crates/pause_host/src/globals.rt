//! Whether values can be the globals of a program at a pause.

ghost use Rattle.std.specs.Prelude.{◌≡◌, ◌++◌, [], IfOk, OnOk, length, map};
ghost use Rattle.std.specs.Bool.{OnTrue, OnFalse};
ghost use Rattle.std.specs.List.{cons_option};
ghost use Rattle.wa_types.specs.Modules.{all_globals, imported, imported_global};
ghost use Rattle.wa_types.specs.Typing.{GlobalType, type_of};
ghost use Rattle.wa_types.specs.View.{module_of};
ghost use Rattle.run_theory.specs.Fitting.{types_of, global_types};
ghost use Rattle.interp.specs.Host.{store_in};
ghost use Rattle.pause_host.specs.Thawing.{GlobalsSuit, SameConstants, mutables_of};

use interp::{Instance, MakeFault};
use std::alloc::{AllocError, Global};
use wa_types::{Import, ImportKind, Module, Value};
use wasm_validate::Valid;

/// Whether values can be the globals of a paused program over the module, whose imported globals had these values: they have the
/// types of the module's, instantiation doesn't end the program, and each constant global has its value of then.
pub(crate) fn globals_suit(
    alloc: Global,
    valid: &Valid,
    imports: &[Value],
    values: &[Value],
) -> Result<bool, AllocError>
    requires { types_of imports.now ≡ global_types (imported imported_global (module_of valid.now)) }
    ensures yes { IfOk result (λ suit. OnTrue suit (GlobalsSuit (module_of valid.now) imports.now values.now)) }
    ensures no { IfOk result (λ suit. OnFalse suit (GlobalsSuit (module_of valid.now) imports.now values.now → ⊥)) }
{
    match Instance::make(alloc, valid, imports) {
        Ok(instance) => instance_suits(alloc, valid.module(), instance, values),
        Err(MakeFault::Memory) => Err(AllocError),
        Err(_) => Ok(false),
    }
}

// Whether they can be behind this instance, which is fresh.
fn instance_suits(
    alloc: Global,
    module: &Module,
    instance: Instance<'_>,
    values: &[Value],
) -> Result<bool, AllocError>
    requires { types_of (store_in instance).globals ≡ global_types (all_globals (module_of «module».now)) }
    ensures yes { IfOk result (λ suit. OnTrue suit ((types_of values.now ≡ global_types (all_globals (module_of «module».now)))
        × SameConstants (mutables_of (module_of «module».now)) (store_in instance.entry).globals values.now)) }
    ensures no { IfOk result (λ suit. OnFalse suit (types_of values.now ≡ global_types (all_globals (module_of «module».now))
        → SameConstants (mutables_of (module_of «module».now)) (store_in instance.entry).globals values.now → ⊥)) }
{
    opened_suit(alloc, module, instance.globals(), values)
}

fn opened_suit(
    alloc: Global,
    module: &Module,
    opened: &[Value],
    values: &[Value],
) -> Result<bool, AllocError>
    requires { types_of opened.now ≡ global_types (all_globals (module_of «module».now)) }
    ensures yes { IfOk result (λ suit. OnTrue suit ((types_of values.now ≡ global_types (all_globals (module_of «module».now)))
        × SameConstants (mutables_of (module_of «module».now)) opened.now values.now)) }
    ensures no { IfOk result (λ suit. OnFalse suit (types_of values.now ≡ global_types (all_globals (module_of «module».now))
        → SameConstants (mutables_of (module_of «module».now)) opened.now values.now → ⊥)) }
{
    if !same_types(opened, values) {
        return Ok(false);
    }
    let mutables = mutables_of(alloc, module)?;
    Ok(same_constants(&mutables, opened, values))
}

// Whether values have the types of others, one by one.
fn same_types(these: &[Value], those: &[Value]) -> bool
    ensures yes { OnTrue result (types_of those.now ≡ types_of these.now) }
    ensures no { OnFalse result (types_of those.now ≡ types_of these.now → ⊥) }
{
    if these.len() != those.len() {
        return false;
    }
    for (i, value) in these.iter().enumerate() {
        if !are_alike(*value, those[i]) {
            return false;
        }
    }
    true
}

// Whether two values are of one type.
fn are_alike(this: Value, that: Value) -> bool
    ensures yes { OnTrue result (type_of that ≡ type_of this) }
    ensures no { OnFalse result (type_of that ≡ type_of this → ⊥) }
{
    match (this, that) {
        (Value::I32(_), Value::I32(_)) => true,
        (Value::I64(_), Value::I64(_)) => true,
        _ => false,
    }
}

// Whether all constant globals have the same value in both.
fn same_constants(mutables: &[bool], opened: &[Value], values: &[Value]) -> bool
    requires as_many { length mutables.now ≡ length values.now }
    requires opened { length opened.now ≡ length values.now }
    ensures yes { OnTrue result (SameConstants mutables.now opened.now values.now) }
    ensures no { OnFalse result (SameConstants mutables.now opened.now values.now → ⊥) }
{
    for (i, value) in values.iter().enumerate() {
        if !mutables[i] && !is_same(*value, opened[i]) {
            return false;
        }
    }
    true
}

// Whether two values are the same.
fn is_same(this: Value, that: Value) -> bool
    ensures yes { OnTrue result (this ≡ that) }
    ensures no { OnFalse result (this ≡ that → ⊥) }
{
    match (this, that) {
        (Value::I32(n), Value::I32(k)) => n == k,
        (Value::I64(n), Value::I64(k)) => n == k,
        _ => false,
    }
}

// Which globals are mutable, by index.
fn mutables_of(alloc: Global, module: &Module) -> Result<Vec<bool>, AllocError>
    ensures { IfOk result (λ v. v.items ≡ mutables_of (module_of «module».now)) }
{
    let mut mutables = imported_mutables(alloc, module)?;
    for global in &module.globals {
        mutables.push(global.mutable)?;
    }
    Ok(mutables)
}

// The same of the imported ones.
fn imported_mutables(alloc: Global, module: &Module) -> Result<Vec<bool>, AllocError>
    ensures { IfOk result (λ v. v.items ≡ map (λ (g : GlobalType). g.mutable) (imported imported_global (module_of «module».now))) }
{
    let mut mutables = Vec::new(alloc);
    for import in &module.imports {
        put_mutable(import, &mut mutables)?;
    }
    Ok(mutables)
}

// One more, for an import that is a global.
fn put_mutable(import: &Import, mutables: &mut Vec<bool>) -> Result<(), AllocError>
    ensures { OnOk result (mutables.new.items ≡ mutables.old.items ++ map (λ (g : GlobalType). g.mutable) (cons_option (imported_global import.now.kind) [])) }
{
    match import.kind {
        ImportKind::Global(_, mutable) => {
            mutables.push(mutable)?;
            Ok(())
        }
        _ => Ok(()),
    }
}
