//! The index spaces of a module, gathered once (standard, section 2.5.1).

ghost use Rattle.std.specs.Prelude.{◌≡◌, ◌<◌, ◌≤◌, ◌^◌, ◌++◌, All, map, length, IfOk, option_map, is_some};
ghost use Rattle.std.specs.List.{filter_map};
ghost use Rattle.wa_types.specs.declared.syntax.Func.{Func as FuncValue};
ghost use Rattle.wa_types.specs.declared.syntax.Import.{Import as ImportValue};
ghost use Rattle.wa_types.specs.Modules.{imported_func, imported_table, imported_memory, imported_global, global_type};
ghost use Rattle.wa_types.specs.Sizes.{SizeRule};
ghost use Rattle.wa_types.specs.Syntax.{Func as PlainFunc};
ghost use Rattle.wa_types.specs.View.{func_of, global_of, module_of};
ghost use Rattle.validate_bodies.specs.Spaces.{ends_from, ends_of, global_type_of, total, SpacesOf};

use std::alloc::{AllocError, Global};
use wa_types::{Func, GlobalDef, Import, ImportKind, Limits, Module, Run, ValType};

/// So many runs of locals are gone through as fast as halved.
pub(crate) const FEW_RUNS: usize = 4;

/// A global type (standard, section 2.3.7).
#[derive(Clone, Copy)]
pub struct GlobalType {
    pub ty: ValType,
    pub mutable: bool,
}

/// What stands in a module under each index, imports first (standard, section 2.5.1).
#[derive(Drop)]
pub struct Spaces {
    /// The index of each function's type.
    pub sorts: Vec<u32>,
    pub func_imports: usize,
    pub globals: Vec<GlobalType>,
    pub global_imports: usize,
    /// How many tables there are.
    pub tables: usize,
    /// How many memories there are.
    pub memories: usize,
    /// Where each run of locals ends, for each defined function that has more than a few.
    pub ends: Vec<Vec<u64>>,
}

impl Spaces {
    /// What stands in this module. Takes time linear in its lists.
    pub fn of(alloc: Global, module: &Module) -> Result<Spaces, AllocError>
        requires { SizeRule (module_of «module».now) }
        ensures { IfOk result (λ s. SpacesOf (module_of «module».now) s) }
    {
        let sorts = all_sorts(alloc, &module.imports, &module.funcs)?;
        let globals = all_globals(alloc, &module.imports, &module.globals)?;
        let func_imports = sorts.len() - module.funcs.len();
        let global_imports = globals.len() - module.globals.len();
        let tables = imported_tables(&module.imports) + module.tables.len();
        let memories = imported_memories(&module.imports) + module.memories.len();
        let ends = all_ends(alloc, &module.funcs)?;
        Ok(Spaces {
            sorts,
            func_imports,
            globals,
            global_imports,
            tables,
            memories,
            ends,
        })
    }
}

/// The index of the type of an imported function.
fn func_sort(kind: ImportKind) -> Option<u32>
    ensures { result ≡ imported_func kind }
{
    match kind {
        ImportKind::Func(sort) => Some(sort),
        _ => None,
    }
}

/// The indices of the types of all functions, imported ones first.
#[tactic(auto, using(crate::proofs::SpaceLemmas::filtering))]
pub fn all_sorts(alloc: Global, imports: &[Import], funcs: &[Func]) -> Result<Vec<u32>, AllocError>
    ensures { IfOk result (λ v. v.items ≡ filter_map (λ (i : ImportValue). imported_func i.kind) imports.now ++ map (λ (f : PlainFunc). f.sort) (map func_of funcs.now)) }
{
    let mut sorts = imported_sorts(alloc, imports)?;
    for func in funcs {
        sorts.push(func.sort)?;
    }
    Ok(sorts)
}

/// The indices of the types of imported functions.
#[tactic(auto, using(crate::proofs::SpaceLemmas::filtering))]
pub fn imported_sorts(alloc: Global, imports: &[Import]) -> Result<Vec<u32>, AllocError>
    ensures { IfOk result (λ v. v.items ≡ filter_map (λ (i : ImportValue). imported_func i.kind) imports.now) }
{
    let mut sorts = Vec::new(alloc);
    for import in imports {
        let Some(sort) = func_sort(import.kind) else {
            continue;
        };
        sorts.push(sort)?;
    }
    Ok(sorts)
}

/// The type of an imported global.
fn import_global(kind: ImportKind) -> Option<GlobalType>
    ensures { option_map global_type_of result ≡ imported_global kind }
{
    match kind {
        ImportKind::Global(ty, mutable) => Some(GlobalType { ty, mutable }),
        _ => None,
    }
}

#[tactic(auto, using(crate::proofs::SpaceLemmas::filtering))]
fn all_globals(
    alloc: Global,
    imports: &[Import],
    globals: &[GlobalDef],
) -> Result<Vec<GlobalType>, AllocError>
    ensures { IfOk result (λ v. map global_type_of v.items ≡ filter_map (λ (i : ImportValue). imported_global i.kind) imports.now ++ map global_type (map global_of globals.now)) }
{
    let mut all = imported_globals(alloc, imports)?;
    for global in globals {
        all.push(GlobalType {
            ty: global.ty,
            mutable: global.mutable,
        })?;
    }
    Ok(all)
}

#[tactic(auto, using(crate::proofs::SpaceLemmas::filtering))]
fn imported_globals(alloc: Global, imports: &[Import]) -> Result<Vec<GlobalType>, AllocError>
    ensures { IfOk result (λ v. map global_type_of v.items ≡ filter_map (λ (i : ImportValue). imported_global i.kind) imports.now) }
{
    let mut globals = Vec::new(alloc);
    for import in imports {
        let Some(global) = import_global(import.kind) else {
            continue;
        };
        globals.push(global)?;
    }
    Ok(globals)
}

/// The limits of an imported table.
pub fn imported_table(kind: ImportKind) -> Option<Limits>
    ensures { result ≡ imported_table kind }
{
    match kind {
        ImportKind::Table(limits) => Some(limits),
        _ => None,
    }
}

/// The limits of an imported memory.
pub fn imported_memory(kind: ImportKind) -> Option<Limits>
    ensures { result ≡ imported_memory kind }
{
    match kind {
        ImportKind::Memory(limits) => Some(limits),
        _ => None,
    }
}

fn is_table(kind: ImportKind) -> bool
    ensures { result ≡ is_some (imported_table kind) }
{
    matches!(kind, ImportKind::Table(_))
}

fn is_memory(kind: ImportKind) -> bool
    ensures { result ≡ is_some (imported_memory kind) }
{
    matches!(kind, ImportKind::Memory(_))
}

#[tactic(auto, using(crate::proofs::SpaceLemmas::counting))]
fn imported_tables(imports: &[Import]) -> usize
    ensures counted { result ≡ length (filter_map (λ (i : ImportValue). imported_table i.kind) imports.now) }
    ensures few { result ≤ length imports.now }
{
    let mut count = 0;
    for import in imports {
        if !is_table(import.kind) {
            continue;
        }
        count += 1;
    }
    count
}

#[tactic(auto, using(crate::proofs::SpaceLemmas::counting))]
fn imported_memories(imports: &[Import]) -> usize
    ensures counted { result ≡ length (filter_map (λ (i : ImportValue). imported_memory i.kind) imports.now) }
    ensures few { result ≤ length imports.now }
{
    let mut count = 0;
    for import in imports {
        if !is_memory(import.kind) {
            continue;
        }
        count += 1;
    }
    count
}

#[tactic(auto, using(crate::proofs::SpaceLemmas::ending))]
fn all_ends(alloc: Global, funcs: &[Func]) -> Result<Vec<Vec<u64>>, AllocError>
    requires { All (λ (f : FuncValue). total f.locals.items < 2 ^ 64) funcs.now }
    ensures { IfOk result (λ v. map (λ w. w.items) v.items ≡ map (λ (f : PlainFunc). ends_of f.locals) (map func_of funcs.now)) }
{
    let mut all = Vec::with_capacity(alloc, funcs.len())?;
    for func in funcs {
        all.push(kept_ends(alloc, &func.locals)?)?;
    }
    Ok(all)
}

/// Where each run ends, where there are more than a few.
#[tactic(auto, using(crate::proofs::SpaceLemmas::choosing))]
fn kept_ends(alloc: Global, runs: &[Run]) -> Result<Vec<u64>, AllocError>
    requires { total runs.now < 2 ^ 64 }
    ensures { IfOk result (λ v. v.items ≡ ends_of runs.now) }
{
    if runs.len() <= FEW_RUNS {
        return Ok(Vec::new(alloc));
    }
    run_ends(alloc, runs)
}

/// Where each run ends.
#[tactic(auto, using(crate::proofs::SpaceLemmas::ending))]
fn run_ends(alloc: Global, runs: &[Run]) -> Result<Vec<u64>, AllocError>
    requires { total runs.now < 2 ^ 64 }
    ensures { IfOk result (λ v. v.items ≡ ends_from 0 runs.now) }
{
    let mut ends = Vec::with_capacity(alloc, runs.len())?;
    let mut end = 0;
    for run in runs {
        end += run.count as u64;
        ends.push(end)?;
    }
    Ok(ends)
}
