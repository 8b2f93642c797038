//! A program's set-up over a prepared module: the area, the five exports, and the functions of the entries.

ghost use Rattle.std.specs.Prelude.{◌≡◌, ◌<◌, ◌^◌, ◌++◌, [], ◌∷◌, IfOk, IfSome, OnOk, None, length, map, position, slice_get};
ghost use Rattle.std.specs.Option.{is_none, unwrap_or};
ghost use Rattle.wa_types.specs.Modules.{func_imports, func_sorts};
ghost use Rattle.wa_types.specs.Syntax.{Module as PlainModule};
ghost use Rattle.wa_types.specs.declared.values.ValType.TheVariants.{I32};
ghost use Rattle.wa_types.specs.View.{module_of};
ghost use Rattle.host_setup.specs.SetUp.{all_told, args_fault, calls_fault, entries_fault, entry_func, entry_funcs, first_false, func_named, have_args};
ghost use Rattle.host_setup.specs.SetUp.{is_area_in, is_five, is_imported, is_there};
ghost use Rattle.host_setup.specs.SetUp.{module_fault, needed, set_up, unless_fault};
ghost use Rattle.host_setup.specs.Views.{IsTableOf, Reads, entry_of};

use crate::exports::by_name;
use crate::faults::SetupFault;
use crate::spaces::{all_sorts, imported_sorts, least_pages};
use crate::types::{are_args, is_defined_as};
use std::alloc::{AllocError, Global};
use std::collections::BTreeMap;
use wa_model::Area;
use wa_types::{Module, Name, ValType, Value};
use wasm_validate::Valid;

const PAGE: u64 = 65_536;

const LEAST_AREA: u32 = 8;

/// One entry call: the name of the export, and its arguments.
#[derive(Drop)]
pub struct Entry {
    pub name: Name,
    pub args: Vec<Value>,
}

/// The functions of a program's entries over a prepared module, or the first fault.
pub fn set_up(
    alloc: Global,
    valid: &Valid,
    area: Area,
    entries: &[Entry],
) -> Result<Vec<u32>, SetupFault>
    requires { length entries.now < 2 ^ 32 }
    ensures { Reads (λ funcs. funcs.items) result (set_up (module_of valid.now) area (map entry_of entries.now)) }
{
    let module = valid.module();
    let pages = least_pages(alloc, module)?;
    if !is_area(area, pages) {
        return Err(SetupFault::AreaBad);
    }
    with_area(alloc, module, entries)
}

// Whether the area begins at a multiple of 4, has 8 bytes at least and lies inside so many pages.
fn is_area(area: Area, pages: u32) -> bool
    ensures { result ≡ is_area_in pages area }
{
    area.at % 4 == 0
        && LEAST_AREA <= area.len
        && u64::from(area.at) + u64::from(area.len) <= u64::from(pages) * PAGE
}

fn with_area(alloc: Global, module: &Module, entries: &[Entry]) -> Result<Vec<u32>, SetupFault>
    requires { length entries.now < 2 ^ 32 }
    ensures { let p = module_of «module».now in let es = map entry_of entries.now in Reads (λ funcs. funcs.items) result
        (unless_fault (module_fault p es) (all_told (entry_funcs p es))) }
{
    let imports = imported_sorts(alloc, module)?.len();
    let sorts = all_sorts(alloc, module)?;
    let names = by_name(alloc, &module.exports)?;
    match missing_export(module, &sorts, imports, &names) {
        Some(name) => Err(SetupFault::NoExports { name }),
        None => with_exports(alloc, module, &sorts, imports, &names, entries),
    }
}

// The first of the five exports that isn't there, by its number.
fn missing_export(
    module: &Module,
    sorts: &[u32],
    imports: usize,
    names: &BTreeMap<&str, Option<u32>>,
) -> Option<u8>
    requires sorts { sorts.now ≡ func_sorts (module_of «module».now) }
    requires imports { imports ≡ func_imports (module_of «module».now) }
    requires names { IsTableOf names.now («module».now).exports.items }
    ensures { result ≡ first_false (map (is_there (module_of «module».now)) needed) }
{
    let is_there = [
        is_start(module, sorts, imports, names, "asyncify_start_unwind"),
        is_stop(module, sorts, imports, names, "asyncify_stop_unwind"),
        is_start(module, sorts, imports, names, "asyncify_start_rewind"),
        is_stop(module, sorts, imports, names, "asyncify_stop_rewind"),
        is_there(
            module,
            sorts,
            imports,
            names,
            "asyncify_get_state",
            Signature {
                params: &[],
                results: &[ValType::I32],
            },
        ),
    ];
    let missing = first_false(&is_there)?;
    Some(missing as u8)
}

// Whether a name exports a function that takes an address and has no result.
fn is_start(
    module: &Module,
    sorts: &[u32],
    imports: usize,
    names: &BTreeMap<&str, Option<u32>>,
    name: &str,
) -> bool
    requires sorts { sorts.now ≡ func_sorts (module_of «module».now) }
    requires imports { imports ≡ func_imports (module_of «module».now) }
    requires names { IsTableOf names.now («module».now).exports.items }
    ensures { result ≡ is_there (module_of «module».now) (record { name = name.now; ty = record { params = I32 ∷ []; results = [] } }) }
{
    let address = Signature {
        params: &[ValType::I32],
        results: &[],
    };
    is_there(module, sorts, imports, names, name, address)
}

// Whether a name exports a function that takes nothing and has no result.
fn is_stop(
    module: &Module,
    sorts: &[u32],
    imports: usize,
    names: &BTreeMap<&str, Option<u32>>,
    name: &str,
) -> bool
    requires sorts { sorts.now ≡ func_sorts (module_of «module».now) }
    requires imports { imports ≡ func_imports (module_of «module».now) }
    requires names { IsTableOf names.now («module».now).exports.items }
    ensures { result ≡ is_there (module_of «module».now) (record { name = name.now; ty = record { params = []; results = [] } }) }
{
    let nothing = Signature {
        params: &[],
        results: &[],
    };
    is_there(module, sorts, imports, names, name, nothing)
}

// The type that is asked of a function.
#[derive(Clone, Copy)]
struct Signature<'a> {
    params: &'a [ValType],
    results: &'a [ValType],
}

// Whether a name exports a function of this type that isn't an import.
fn is_there(
    module: &Module,
    sorts: &[u32],
    imports: usize,
    names: &BTreeMap<&str, Option<u32>>,
    name: &str,
    ty: Signature<'_>,
) -> bool
    requires sorts { sorts.now ≡ func_sorts (module_of «module».now) }
    requires imports { imports ≡ func_imports (module_of «module».now) }
    requires names { IsTableOf names.now («module».now).exports.items }
    ensures { result ≡ is_there (module_of «module».now) (record { name = name.now; ty = record { params = ty.entry.params.now; results = ty.entry.results.now } }) }
{
    let func = func_named(names, name);
    is_defined_as(module, sorts, imports, func, ty.params, ty.results)
}

// The function that is exported under a name.
fn func_named(names: &BTreeMap<&str, Option<u32>>, name: &str) -> Option<u32>
    ensures { (p : PlainModule) → IsTableOf names.now p.exports → result ≡ func_named p name.now }
{
    match names.get(name) {
        Some(func) => *func,
        None => None,
    }
}

fn first_false(tests: &[bool]) -> Option<usize>
    ensures place { result ≡ first_false tests.now }
    ensures bound { IfSome result (λ i. i < length tests.now) }
{
    tests.iter().position(|test| !*test)
}

fn with_exports(
    alloc: Global,
    module: &Module,
    sorts: &[u32],
    imports: usize,
    names: &BTreeMap<&str, Option<u32>>,
    entries: &[Entry],
) -> Result<Vec<u32>, SetupFault>
    requires few { length entries.now < 2 ^ 32 }
    requires sorts { sorts.now ≡ func_sorts (module_of «module».now) }
    requires imports { imports ≡ func_imports (module_of «module».now) }
    requires names { IsTableOf names.now («module».now).exports.items }
    ensures { let p = module_of «module».now in let es = map entry_of entries.now in Reads (λ funcs. funcs.items) result
        (unless_fault (entries_fault (func_imports p) (entry_funcs p es) (have_args p es)) (all_told (entry_funcs p es))) }
{
    let funcs = entry_funcs(alloc, names, entries)?;
    let have_args = have_args(alloc, module, sorts, &funcs, entries)?;
    with_functions(alloc, &funcs, &have_args, imports)
}

// The functions of entries, each of which calls one and has arguments of its types, or the first fault.
fn with_functions(
    alloc: Global,
    funcs: &[Option<u32>],
    have_args: &[bool],
    imports: usize,
) -> Result<Vec<u32>, SetupFault>
    requires funcs { length funcs.now < 2 ^ 32 }
    requires tests { length have_args.now < 2 ^ 32 }
    ensures { Reads (λ told. told.items) result (unless_fault (entries_fault imports funcs.now have_args.now) (all_told funcs.now)) }
{
    match first_missing(funcs) {
        Some(entry) => Err(SetupFault::EntryMissing {
            entry: entry as u32,
        }),
        None => with_defined(alloc, funcs, have_args, imports),
    }
}

fn with_defined(
    alloc: Global,
    funcs: &[Option<u32>],
    have_args: &[bool],
    imports: usize,
) -> Result<Vec<u32>, SetupFault>
    requires funcs { length funcs.now < 2 ^ 32 }
    requires tests { length have_args.now < 2 ^ 32 }
    ensures { Reads (λ told. told.items) result (unless_fault (calls_fault imports funcs.now have_args.now) (all_told funcs.now)) }
{
    match first_imported(funcs, imports) {
        Some(entry) => Err(SetupFault::EntryIsImport {
            entry: entry as u32,
        }),
        None => with_args(alloc, funcs, have_args),
    }
}

fn with_args(
    alloc: Global,
    funcs: &[Option<u32>],
    have_args: &[bool],
) -> Result<Vec<u32>, SetupFault>
    requires { length have_args.now < 2 ^ 32 }
    ensures { Reads (λ told. told.items) result (unless_fault (args_fault have_args.now) (all_told funcs.now)) }
{
    match first_false(have_args) {
        Some(entry) => Err(SetupFault::ArgTypes {
            entry: entry as u32,
        }),
        None => Ok(told(alloc, funcs)?),
    }
}

// The function that each entry calls, where there is one.
fn entry_funcs(
    alloc: Global,
    names: &BTreeMap<&str, Option<u32>>,
    entries: &[Entry],
) -> Result<Vec<Option<u32>>, AllocError>
    ensures { (p : PlainModule) → IsTableOf names.now p.exports → IfOk result (λ funcs. funcs.items ≡ entry_funcs p (map entry_of entries.now)) }
{
    let mut funcs = Vec::new(alloc);
    for entry in entries {
        let func = entry_func(names, entry.name.as_str());
        put(&mut funcs, func)?;
    }
    Ok(funcs)
}

fn entry_func(names: &BTreeMap<&str, Option<u32>>, name: &str) -> Option<u32>
    ensures { (p : PlainModule) → IsTableOf names.now p.exports → result ≡ entry_func p name.now }
{
    if is_five(name) {
        return None;
    }
    func_named(names, name)
}

// Whether a name is one of the five.
fn is_five(name: &str) -> bool
    ensures { result ≡ is_five name.now }
{
    name == "asyncify_start_unwind"
        || name == "asyncify_stop_unwind"
        || name == "asyncify_start_rewind"
        || name == "asyncify_stop_rewind"
        || name == "asyncify_get_state"
}

// Whether each entry has arguments of its function's types.
fn have_args(
    alloc: Global,
    module: &Module,
    sorts: &[u32],
    funcs: &[Option<u32>],
    entries: &[Entry],
) -> Result<Vec<bool>, AllocError>
    requires sorts { sorts.now ≡ func_sorts (module_of «module».now) }
    requires funcs { funcs.now ≡ entry_funcs (module_of «module».now) (map entry_of entries.now) }
    ensures { IfOk result (λ tests. tests.items ≡ have_args (module_of «module».now) (map entry_of entries.now)) }
{
    let mut tests = Vec::new(alloc);
    for (i, entry) in entries.iter().enumerate() {
        let func = func_at(funcs, i);
        let test = are_args(module, sorts, &entry.args, func);
        put(&mut tests, test)?;
    }
    Ok(tests)
}

fn func_at(funcs: &[Option<u32>], i: usize) -> Option<u32>
    ensures { result ≡ unwrap_or (slice_get funcs.now i) None }
{
    match funcs.get(i) {
        Some(func) => *func,
        None => None,
    }
}

// Puts an item behind others.
fn put<T: Drop>(items: &mut Vec<T>, item: T) -> Result<(), AllocError>
    ensures { OnOk result (items.new.items ≡ items.old.items ++ item ∷ []) }
{
    items.push(item)?;
    Ok(())
}

fn first_missing(funcs: &[Option<u32>]) -> Option<usize>
    ensures place { result ≡ position is_none funcs.now }
    ensures bound { IfSome result (λ i. i < length funcs.now) }
{
    funcs.iter().position(|func| func.is_none())
}

fn first_imported(funcs: &[Option<u32>], imports: usize) -> Option<usize>
    ensures place { result ≡ position (is_imported imports) funcs.now }
    ensures bound { IfSome result (λ i. i < length funcs.now) }
{
    funcs.iter().position(|func| is_imported(*func, imports))
}

fn is_imported(func: Option<u32>, imports: usize) -> bool
    ensures { result ≡ is_imported imports func }
{
    match func {
        None => false,
        Some(func) => (func as usize) < imports,
    }
}

fn told(alloc: Global, funcs: &[Option<u32>]) -> Result<Vec<u32>, AllocError>
    ensures { IfOk result (λ told. told.items ≡ all_told funcs.now) }
{
    funcs.iter().map(|func| func.unwrap_or(0)).collect(alloc)
}
