//! The frames of the functions that may pause, for who asks for them.

ghost use Rattle.std.specs.Prelude.{◌≡◌, ◌+◌, ◌<◌, ◌≤◌, drop, length, slice_get, Ok, Some, IfOk};
ghost use Rattle.wa_types.specs.Frames.{Count};
ghost use Rattle.wa_types.specs.Modules.{func_imports};
ghost use Rattle.wa_types.specs.Pausing.{Listed};
ghost use Rattle.wa_types.specs.Sizes.{StrictSizeRule};
ghost use Rattle.wa_types.specs.Syntax.{Func as PlainFunc};
ghost use Rattle.wa_types.specs.View.{module_of};
ghost use Rattle.call_graph.specs.Settings.{settings_of};
ghost use Rattle.flatten.specs.Whole.{FlatAnswer, NonePasses};
ghost use Rattle.module_rewrite.specs.Layouts.{LaidOut};

use func_rewrite::{FlatFault, Flattened, Pass, flatten_func, frames_by_policy};
use local_spill::Layout;
use std::alloc::{AllocError, Global};
use wasm_validate::Valid;

/// The frames of the numbered calls of a function, in order.
#[derive(Drop)]
pub struct FuncLayout {
    pub func: u32,
    pub calls: Vec<Layout>,
}

/// The flat function of a function that hasn't too many locals.
fn small_flat(
    alloc: Global,
    valid: &Valid,
    imports: usize,
    index: usize,
) -> Result<Flattened, AllocError>
    requires sizes { StrictSizeRule (module_of valid.now) }
    requires imports { imports ≡ func_imports (module_of valid.now) }
    requires within { index < length valid.now.funcs.items }
    requires few { (f : PlainFunc) → slice_get (module_of valid.now).funcs index ≡ Some f → Count (module_of valid.now) f ≤ 50000 }
    ensures { IfOk result (λ flat. (f : PlainFunc) → slice_get (module_of valid.now).funcs index ≡ Some f → FlatAnswer (module_of valid.now) (imports + index) f (Ok flat)) }
{
    match flatten_func(alloc, valid, imports, index) {
        Ok(flat) => Ok(flat),
        Err(FlatFault::Memory) => Err(AllocError),
        Err(FlatFault::Locals { .. }) => unreachable!(),
    }
}

/// The frames of the functions that may pause, in index order, none of which has too many locals.
pub(crate) fn func_layouts(alloc: Global, pass: &Pass<'_>) -> Result<Vec<FuncLayout>, AllocError>
    requires sizes { StrictSizeRule (module_of pass.now.valid.now) }
    requires which { length pass.now.which.now ≡ func_imports (module_of pass.now.valid.now) + length (module_of pass.now.valid.now).funcs }
    requires listed { pass.now.listed.now ≡ Listed (module_of pass.now.valid.now) (settings_of pass.now.settings.now) }
    requires few { NonePasses (module_of pass.now.valid.now) (drop (func_imports (module_of pass.now.valid.now)) pass.now.which.now) (module_of pass.now.valid.now).funcs }
    ensures { IfOk result (λ v. LaidOut (module_of pass.now.valid.now) (settings_of pass.now.settings.now) pass.now.which.now (func_imports (module_of pass.now.valid.now))
        (drop (func_imports (module_of pass.now.valid.now)) pass.now.which.now) (module_of pass.now.valid.now).funcs v.items) }
{
    let which = pass.which;
    let module = pass.valid.module();
    let imports = which.len() - module.funcs.len();
    let mut layouts = Vec::new(alloc);
    for index in 0..module.funcs.len() {
        let source = &module.funcs[index];
        if !which[imports + index] {
            continue;
        }
        let flat = small_flat(alloc, pass.valid, imports, index)?;
        let calls = frames_by_policy(alloc, pass, source, &flat)?;
        layouts.push(FuncLayout {
            func: flat.func.func,
            calls,
        })?;
    }
    Ok(layouts)
}
