//! The types of a function's parameters and declared locals.

ghost use Rattle.std.specs.Prelude.{◌≡◌, IfOk};
ghost use Rattle.wa_types.specs.Modules.{declared_locals, locals_of, type_at};
ghost use Rattle.wa_types.specs.View.{func_of, module_of};

use std::alloc::{AllocError, Global};
use wa_types::{Func, Module, Run, ValType};

/// The types of a function's parameters and declared locals.
pub(crate) fn locals(
    alloc: Global,
    module: &Module,
    func: &Func,
) -> Result<Vec<ValType>, AllocError>
    ensures { IfOk result (λ v. v.items ≡ locals_of (module_of «module».now) (func_of func.now)) }
{
    let params = params_of(module, func.sort);
    let mut locals = Vec::from_slice(alloc, params)?;
    let declared = declared(alloc, &func.locals)?;
    locals.extend_from_slice(&declared)?;
    Ok(locals)
}

fn declared(alloc: Global, runs: &[Run]) -> Result<Vec<ValType>, AllocError>
    ensures { IfOk result (λ v. v.items ≡ declared_locals runs.now) }
{
    let mut types = Vec::new(alloc);
    for run in runs {
        types.resize(types.len() + run.count as usize, run.ty)?;
    }
    Ok(types)
}

fn params_of(module: &Module, sort: u32) -> &[ValType]
    ensures { result.now ≡ (type_at (module_of «module».now) sort).params }
{
    match module.types.get(sort as usize) {
        Some(ty) => &ty.params,
        None => &[],
    }
}
