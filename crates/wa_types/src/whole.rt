//! Equal modules, and those that are equal but for their functions.

ghost use Rattle.std.specs.Prelude.{◌≡◌, IfOk, map};
ghost use Rattle.wa_types.specs.View.{func_of, module_of};

use crate::parts::copy_each;
use crate::syntax::{Func, Module};
use std::alloc::{AllocError, Global};

/// An equal module. Takes the same native stack however deep its bodies nest.
pub fn copy_module(alloc: Global, module: &Module) -> Result<Module, AllocError>
    ensures { IfOk result (λ m. module_of m ≡ module_of «module».now) }
{
    let funcs = copy_each(alloc, &module.funcs)?;
    copy_around(alloc, module, funcs)
}

/// A copy of the module with these functions in place of its own.
pub fn copy_around(alloc: Global, module: &Module, funcs: Vec<Func>) -> Result<Module, AllocError>
    ensures { IfOk result (λ m. module_of m ≡ record (module_of «module».now) { funcs = map func_of funcs.items }) }
{
    Ok(Module {
        types: copy_each(alloc, &module.types)?,
        imports: copy_each(alloc, &module.imports)?,
        funcs,
        tables: Vec::from_slice(alloc, &module.tables)?,
        memories: Vec::from_slice(alloc, &module.memories)?,
        globals: copy_each(alloc, &module.globals)?,
        exports: copy_each(alloc, &module.exports)?,
        start: module.start,
        elems: copy_each(alloc, &module.elems)?,
        segments: copy_each(alloc, &module.segments)?,
        customs: copy_each(alloc, &module.customs)?,
    })
}
