//! The rules outside the bodies of a module, in rising number.

ghost use Rattle.std.specs.Prelude.{◌≡◌, [], Some, MatchOption, IfOk, slice_get};
ghost use Rattle.wa_types.specs.Rules.{number};
ghost use Rattle.wa_types.specs.Validity.{types_there, funcs_there, tables_there, memories_there, globals_there, all_limits_fit, one_each, all_constant, names_differ, start_lawful, one_result, broken_outside};
ghost use Rattle.wa_types.specs.View.{module_of};
ghost use Rattle.wasm_validate.specs.Outside.{later};
ghost use Rattle.validate_bodies.specs.Spaces.{SpacesOf};

use crate::indices::{all_below, funcs_below, globals_below, memories_below, tables_below};
use crate::names::names_differ;
use crate::outside::{all_constant, all_limits_fit, one_each, one_result, start_fits};
use std::alloc::{AllocError, Global};
use validate_bodies::Spaces;
use wa_types::{Module, Rule};

/// The types of imported and defined functions are there (standard, sections 3.2.6, 3.4.1 and 3.4.9).
fn types_there(module: &Module, spaces: &Spaces) -> bool
    requires { SpacesOf (module_of «module».now) spaces.now }
    ensures { result ≡ types_there (module_of «module».now) }
{
    all_below(module.types.len(), &spaces.sorts)
}

/// The functions that are named are there.
fn funcs_there(module: &Module, spaces: &Spaces) -> bool
    requires { SpacesOf (module_of «module».now) spaces.now }
    ensures { result ≡ funcs_there (module_of «module».now) }
{
    let limit = spaces.sorts.len();
    funcs_below(limit, &module.exports, module.start, &module.elems)
}

/// The tables that are named are there.
fn tables_there(module: &Module, spaces: &Spaces) -> bool
    requires { SpacesOf (module_of «module».now) spaces.now }
    ensures { result ≡ tables_there (module_of «module».now) }
{
    tables_below(spaces.tables, &module.exports, &module.elems)
}

/// The memories that are named are there.
fn memories_there(module: &Module, spaces: &Spaces) -> bool
    requires { SpacesOf (module_of «module».now) spaces.now }
    ensures { result ≡ memories_there (module_of «module».now) }
{
    memories_below(spaces.memories, &module.exports, &module.segments)
}

/// The globals that are named are there.
fn globals_there(module: &Module, spaces: &Spaces) -> bool
    requires { SpacesOf (module_of «module».now) spaces.now }
    ensures { result ≡ globals_there (module_of «module».now) }
{
    let limit = spaces.globals.len();
    globals_below(
        limit,
        &module.exports,
        &module.globals,
        &module.elems,
        &module.segments,
    )
}

/// The limits of tables and memories are within their ranges.
fn limits_fit(module: &Module) -> bool
    ensures { result ≡ all_limits_fit (module_of «module».now) }
{
    all_limits_fit(&module.imports, &module.tables, &module.memories)
}

/// There is one table and one memory at most.
fn single(module: &Module, spaces: &Spaces) -> bool
    requires { SpacesOf (module_of «module».now) spaces.now }
    ensures { result ≡ one_each (module_of «module».now) }
{
    one_each(spaces.tables, spaces.memories)
}

/// Initialisers and offsets are constant.
fn constants(module: &Module, spaces: &Spaces) -> bool
    requires { SpacesOf (module_of «module».now) spaces.now }
    ensures { result ≡ all_constant (module_of «module».now) }
{
    all_constant(
        &spaces.globals,
        spaces.global_imports,
        &module.globals,
        &module.elems,
        &module.segments,
    )
}

/// No two exports have one name.
fn names(alloc: Global, module: &Module) -> Result<bool, AllocError>
    ensures { IfOk result (λ yes. yes ≡ names_differ (module_of «module».now)) }
{
    names_differ(alloc, &module.exports)
}

/// The start function takes and gives nothing.
fn start_lawful(module: &Module, spaces: &Spaces) -> bool
    requires { SpacesOf (module_of «module».now) spaces.now }
    ensures { result ≡ start_lawful (module_of «module».now) }
{
    start_fits(module.start, &spaces.sorts, &module.types)
}

/// Types have one result at most.
fn results(module: &Module) -> bool
    ensures { result ≡ one_result (module_of «module».now) }
{
    one_result(&module.types)
}

/// The first of the rules on limits and those behind it that fails outside the bodies, if one does.
fn broken_later(alloc: Global, module: &Module, spaces: &Spaces) -> Result<Option<Rule>, AllocError>
    requires { SpacesOf (module_of «module».now) spaces.now }
    ensures { IfOk result (λ r. MatchOption r (later (module_of «module».now) ≡ []) (λ rule. slice_get (later (module_of «module».now)) 0 ≡ Some (number rule))) }
{
    if !limits_fit(module) {
        return Ok(Some(Rule::BadLimits));
    }
    if !single(module, spaces) {
        return Ok(Some(Rule::SecondInstance));
    }
    if !constants(module, spaces) {
        return Ok(Some(Rule::NotConstant));
    }
    if !names(alloc, module)? {
        return Ok(Some(Rule::DuplicateExport));
    }
    if !start_lawful(module, spaces) {
        return Ok(Some(Rule::StartType));
    }
    if !results(module) {
        return Ok(Some(Rule::SecondResult));
    }
    Ok(None)
}

/// The first rule that fails outside the bodies, if one does.
pub fn broken_outside(
    alloc: Global,
    module: &Module,
    spaces: &Spaces,
) -> Result<Option<Rule>, AllocError>
    requires { SpacesOf (module_of «module».now) spaces.now }
    ensures { IfOk result (λ r. MatchOption r (broken_outside (module_of «module».now) ≡ []) (λ rule. slice_get (broken_outside (module_of «module».now)) 0 ≡ Some (number rule))) }
{
    if !types_there(module, spaces) {
        return Ok(Some(Rule::UnknownType));
    }
    if !funcs_there(module, spaces) {
        return Ok(Some(Rule::UnknownFunc));
    }
    if !tables_there(module, spaces) {
        return Ok(Some(Rule::UnknownTable));
    }
    if !memories_there(module, spaces) {
        return Ok(Some(Rule::UnknownMemory));
    }
    if !globals_there(module, spaces) {
        return Ok(Some(Rule::UnknownGlobal));
    }
    broken_later(alloc, module, spaces)
}
