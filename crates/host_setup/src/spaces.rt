//! Index spaces of a module: the types of its functions, and the declared minimum of its memory (standard, section 2.5.1).

ghost use Rattle.std.specs.Prelude.{◌≡◌, IfOk, length, map};
ghost use Rattle.wa_types.specs.Modules.{all_memories, func_imports, func_sorts, imported, imported_func, imported_memory};
ghost use Rattle.wa_types.specs.View.{module_of};
ghost use Rattle.wa_model.specs.Instantiation.{least_of};
ghost use Rattle.host_setup.specs.SetUp.{least_pages};

use std::alloc::{AllocError, Global};
use wa_types::{ImportKind, Limits, Module};

fn func_sort(kind: ImportKind) -> Option<u32>
    ensures { result ≡ imported_func kind }
{
    match kind {
        ImportKind::Func(sort) => Some(sort),
        _ => None,
    }
}

fn memory_limits(kind: ImportKind) -> Option<Limits>
    ensures { result ≡ imported_memory kind }
{
    match kind {
        ImportKind::Memory(limits) => Some(limits),
        _ => None,
    }
}

/// The indices of the types of the imported functions.
pub(crate) fn imported_sorts(alloc: Global, module: &Module) -> Result<Vec<u32>, AllocError>
    ensures { IfOk result (λ v. v.items ≡ imported imported_func (module_of «module».now)) }
{
    let imports = module.imports.as_slice();
    imports
        .iter()
        .filter_map(|import| func_sort(import.kind))
        .collect(alloc)
}

/// The indices of the types of all functions.
#[tactic(auto, using(crate::proofs::IndexTypes::appending))]
pub(crate) fn all_sorts(alloc: Global, module: &Module) -> Result<Vec<u32>, AllocError>
    ensures { IfOk result (λ v. v.items ≡ func_sorts (module_of «module».now)) }
{
    let mut sorts = imported_sorts(alloc, module)?;
    for func in &module.funcs {
        sorts.push(func.sort)?;
    }
    Ok(sorts)
}

fn imported_memories(alloc: Global, module: &Module) -> Result<Vec<Limits>, AllocError>
    ensures { IfOk result (λ v. v.items ≡ imported imported_memory (module_of «module».now)) }
{
    let imports = module.imports.as_slice();
    imports
        .iter()
        .filter_map(|import| memory_limits(import.kind))
        .collect(alloc)
}

/// The pages of the memory's declared minimum; 0 where there is no memory.
pub(crate) fn least_pages(alloc: Global, module: &Module) -> Result<u32, AllocError>
    ensures { IfOk result (λ n. n ≡ least_pages (module_of «module».now)) }
{
    let mut limits = imported_memories(alloc, module)?;
    limits.extend_from_slice(&module.memories)?;
    Ok(least_of(&limits))
}

fn least_of(limits: &[Limits]) -> u32
    ensures { result ≡ least_of limits.now }
{
    match limits {
        [] => 0,
        [first, ..] => first.min,
    }
}
