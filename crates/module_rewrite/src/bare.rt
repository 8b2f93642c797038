//! A module without the bodies and locals of its functions, for where these stand as entries of the code section.

ghost use Rattle.std.specs.Prelude.{◌≡◌, map, IfOk, OnOk};
ghost use Rattle.wa_types.specs.View.{func_of, module_of};
ghost use Rattle.module_rewrite.specs.Bare.{bare, without_bodies};

use std::alloc::{AllocError, Global};
use wa_types::{Func, Module};

/// These functions without their bodies and locals.
fn bare_funcs(alloc: Global, funcs: &[Func]) -> Result<Vec<Func>, AllocError>
    ensures { IfOk result (λ v. map func_of v.items ≡ map bare (map func_of funcs.now)) }
{
    let mut out = Vec::with_capacity(alloc, funcs.len())?;
    for func in funcs {
        out.push(Func {
            sort: func.sort,
            locals: Vec::new(alloc),
            body: Vec::new(alloc),
        })?;
    }
    Ok(out)
}

/// Drops the bodies and locals of a module's functions.
pub(crate) fn drop_bodies(alloc: Global, module: &mut Module) -> Result<(), AllocError>
    ensures { OnOk result (module_of «module».new ≡ without_bodies (module_of «module».old)) }
{
    let funcs = bare_funcs(alloc, &module.funcs)?;
    module.funcs = funcs;
    Ok(())
}
