//! Imported globals, and the lines that set them.

ghost use Rattle.std.specs.Prelude.{◌≡◌, ◌++◌, [], ◌∷◌, ℕ, List, IfOk, OnOk, map, not, position, if◌then◌else◌};
ghost use Rattle.std.specs.List.{filter_map};
ghost use Rattle.std.specs.Option.{unwrap_or};
ghost use Rattle.std.specs.Str.{bytes_eq};
ghost use Rattle.std.specs.String.{string_bytes};
ghost use Rattle.wa_types.specs.declared.values.ValType.TheVariants.{I32, I64};
ghost use Rattle.wa_types.specs.Encoding.{same_type};
ghost use Rattle.wa_types.specs.Modules.{imported_global};
ghost use Rattle.wa_types.specs.Pausing.{joined_name};
ghost use Rattle.script_model.specs.Script.{GlobalText as PlainGlobal};
ghost use Rattle.wa_model.specs.Step.{zero_of};
ghost use Rattle.script_reader.specs.Views.{global_of};
ghost use Rattle.script_setup.specs.SetUpRules.{bad_global, global_values, value_or_zero};
ghost use Rattle.script_setup.specs.Tables.{TellsTypes, TellsValues, is_lawful, types_in, value_in, with_global, with_type};

use crate::names::joined_text;
use script_reader::GlobalText;
use std::alloc::{AllocError, Global};
use std::collections::BTreeMap;
use wa_types::{Import, ImportKind, ValType, Value};

/// Which types the imported globals of a joined name have.
#[derive(Clone, Copy)]
pub(crate) struct Types {
    pub narrow: bool,
    pub wide: bool,
}

const NO_TYPES: Types = Types {
    narrow: false,
    wide: false,
};

// The types of imported globals by their joined names, which are kept in order, so that whoever chooses them can't make a
// look-up slow.
fn types_by_name(alloc: Global, imports: &[Import]) -> Result<BTreeMap<String, Types>, AllocError>
    ensures { IfOk result (λ found. TellsTypes found imports.now) }
{
    let mut found = BTreeMap::new(alloc);
    for import in imports {
        put_import(alloc, &mut found, import)?;
    }
    Ok(found)
}

fn put_import(
    alloc: Global,
    found: &mut BTreeMap<String, Types>,
    import: &Import,
) -> Result<(), AllocError>
    ensures { OnOk result ((name : List ℕ) → types_in found.new name ≡ with_global (imported_global import.now.kind) (bytes_eq (joined_name import.now) name) (types_in found.old name)) }
{
    match import.kind {
        ImportKind::Global(ty, _) => {
            let joined = joined_text(alloc, import)?;
            put_type(found, joined, ty)
        }
        _ => Ok(()),
    }
}

fn put_type(
    found: &mut BTreeMap<String, Types>,
    joined: String,
    ty: ValType,
) -> Result<(), AllocError>
    ensures { OnOk result ((name : List ℕ) → types_in found.new name ≡ (if bytes_eq (string_bytes joined) name then with_type ty (types_in found.old name) else types_in found.old name)) }
{
    let types = with_type(ty, types_at(found, joined.as_str()));
    found.insert(joined, types)?;
    Ok(())
}

fn types_at(found: &BTreeMap<String, Types>, name: &str) -> Types
    ensures { result ≡ types_in found.now name.now }
{
    match found.get(name) {
        Some(types) => *types,
        None => NO_TYPES,
    }
}

fn with_type(ty: ValType, types: Types) -> Types
    ensures { result ≡ with_type ty types }
{
    Types {
        narrow: types.narrow || is_narrow(ty),
        wide: types.wide || !is_narrow(ty),
    }
}

/// Whether a value of this type has 32 bits.
pub(crate) fn is_narrow(ty: ValType) -> bool
    ensures narrow { result ≡ same_type ty I32 }
    ensures wide { not result ≡ same_type ty I64 }
{
    match ty {
        ValType::I32 => true,
        ValType::I64 => false,
    }
}

/// The place of the first line that sets no imported global of its value's type.
pub(crate) fn bad_global(
    alloc: Global,
    imports: &[Import],
    globals: &[GlobalText],
) -> Result<Option<usize>, AllocError>
    ensures { IfOk result (λ place. bad_global imports.now (map global_of globals.now) ≡ place) }
{
    let types = types_by_name(alloc, imports)?;
    let place = unlawful(&types, globals);
    Ok(place)
}

// The place of the first line whose value hasn't the type that is found under its name.
fn unlawful(found: &BTreeMap<String, Types>, globals: &[GlobalText]) -> Option<usize>
    ensures { result ≡ position (λ g. not (is_lawful (types_in found.now g.name) g.value)) globals.now }
{
    globals.iter().position(|global| !is_set(found, global))
}

fn is_set(found: &BTreeMap<String, Types>, global: &GlobalText) -> bool
    ensures { result ≡ is_lawful (types_in found.now global.now.name) global.now.value }
{
    let types = types_at(found, global.name.as_str());
    is_lawful(types, global.value)
}

fn is_lawful(types: Types, value: Value) -> bool
    ensures { result ≡ is_lawful types value }
{
    match value {
        Value::I32(_) => types.narrow && !types.wide,
        Value::I64(_) => types.wide && !types.narrow,
    }
}

/// One value for each imported global: that of the last line of its joined name, else 0.
pub(crate) fn global_values(
    alloc: Global,
    imports: &[Import],
    globals: &[GlobalText],
) -> Result<Vec<Value>, AllocError>
    ensures { IfOk result (λ list. global_values imports.now (map global_of globals.now) ≡ list.items) }
{
    let values = told_values(alloc, globals)?;
    let list = values_of(alloc, imports, &values)?;
    Ok(list)
}

// The values that these lines give, by their names; the last line of a name wins.
fn told_values<'t>(
    alloc: Global,
    globals: &'t [GlobalText],
) -> Result<BTreeMap<&'t str, Value>, AllocError>
    ensures { IfOk result (λ values. TellsValues values (map global_of globals.now)) }
{
    let mut values = BTreeMap::new(alloc);
    for global in globals {
        put_value(&mut values, global)?;
    }
    Ok(values)
}

fn put_value<'t>(
    values: &mut BTreeMap<&'t str, Value>,
    global: &'t GlobalText,
) -> Result<(), AllocError>
    ensures { OnOk result ((name : List ℕ) → value_in values.new name ≡ (if bytes_eq global.now.name name then Some global.now.value else value_in values.old name)) }
{
    values.insert(global.name.as_str(), global.value)?;
    Ok(())
}

// One value for each imported global: what is told under its joined name, else 0.
fn values_of(
    alloc: Global,
    imports: &[Import],
    values: &BTreeMap<&str, Value>,
) -> Result<Vec<Value>, AllocError>
    ensures { (globals : List PlainGlobal) → TellsValues values.now globals → IfOk result (λ list. list.items ≡ global_values imports.now globals) }
{
    let mut list = Vec::new(alloc);
    for import in imports {
        put_global(alloc, &mut list, import, values)?;
    }
    Ok(list)
}

fn put_global(
    alloc: Global,
    list: &mut Vec<Value>,
    import: &Import,
    values: &BTreeMap<&str, Value>,
) -> Result<(), AllocError>
    ensures { OnOk result (list.new.items ≡ list.old.items ++ filter_map (λ (i : Import). value_or_zero (imported_global i.kind) (value_in values.now (joined_name i))) (import.now ∷ [])) }
{
    match import.kind {
        ImportKind::Global(ty, _) => {
            let joined = joined_text(alloc, import)?;
            let value = value_at(values, joined.as_str(), ty);
            list.push(value)?;
            Ok(())
        }
        _ => Ok(()),
    }
}

fn value_at(values: &BTreeMap<&str, Value>, name: &str, ty: ValType) -> Value
    ensures { result ≡ unwrap_or (value_in values.now name.now) (zero_of ty) }
{
    match values.get(name) {
        Some(value) => *value,
        None => zero_of(ty),
    }
}

fn zero_of(ty: ValType) -> Value
    ensures { result ≡ zero_of ty }
{
    match ty {
        ValType::I32 => Value::I32(0),
        ValType::I64 => Value::I64(0),
    }
}
