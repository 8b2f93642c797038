//! A module, rewritten: its emitted functions, and the runtime's parts behind.

ghost use Rattle.std.specs.Prelude.{◌≡◌, ◌<◌, ◌^◌, None, length, IfOk, IfErr};
ghost use Rattle.wa_types.specs.Runtime.{func_space, global_space, with_runtime};
ghost use Rattle.wa_types.specs.Sizes.{SizeRule, StrictSizeRule};
ghost use Rattle.wa_types.specs.Validity.{Valid as IsValid};
ghost use Rattle.wa_types.specs.View.{module_of};
ghost use Rattle.local_spill.specs.Reserved.{reserved_at};
ghost use Rattle.call_graph.specs.Settings.{settings_of};
ghost use Rattle.module_rewrite.specs.declared.fault.RewriteFault.TheVariants.{Memory};
ghost use Rattle.module_rewrite.specs.Whole.{Asyncifies, Instruments};

use crate::fault::RewriteFault;
use crate::layouts::{FuncLayout, func_layouts};
use crate::pass::rewrite_funcs;
use call_graph::{Settings, listed_imports, pausing_functions};
use func_rewrite::Pass;
use local_spill::{RuntimeFault, add_runtime, ids_behind, reserved};
use std::alloc::Global;
use wa_types::{Module, copy_around};
use wasm_validate::Valid;

/// A module as it is rewritten, the frames of the functions that may pause, in index order, and which these are, by one answer
/// a function, imports first.
#[derive(Drop)]
pub struct Rewritten {
    pub module: Valid,
    pub layouts: Vec<FuncLayout>,
    pub instrumented: Vec<bool>,
}

/// A module as it is rewritten, which functions may pause, by one answer a function, imports first, and which function imports may.
#[derive(Drop)]
pub struct Instrumented {
    pub module: Valid,
    pub instrumented: Vec<bool>,
    pub listed: Vec<bool>,
}

/// The module with the runtime's parts behind, which is known to be valid.
fn with_parts(alloc: Global, module: Module) -> Result<Valid, RewriteFault>
    requires types { length «module».types.items < 2 ^ 31 }
    requires imports { length «module».imports.items < 2 ^ 31 }
    requires funcs { func_space (module_of «module») < 2 ^ 31 }
    requires globals { global_space (module_of «module») < 2 ^ 31 }
    requires exports { length «module».exports.items < 2 ^ 31 }
    requires free { reserved_at (module_of «module») ≡ None }
    requires valid { IsValid (with_runtime (module_of «module»)) }
    requires sizes { SizeRule (with_runtime (module_of «module»)) }
    ensures done { IfOk result (λ v. module_of v ≡ with_runtime (module_of «module»)) }
    ensures fault { IfErr result (λ e. e ≡ Memory) }
{
    match add_runtime(alloc, module) {
        Ok(with) => Ok(Valid::proved(alloc, with.module)?),
        Err(RuntimeFault::Memory) => Err(RewriteFault::Memory),
        Err(RuntimeFault::Reserved(_)) => unreachable!(),
    }
}

/// The module rewritten so that it can stop in the middle of a call of a listed import and go on later. `Reserved` comes
/// exactly where `reserved` gives that place; else `Locals` exactly where a function that may pause would have more than
/// 50,000 parameters and locals, for the first. Takes time linear in the module and in what is answered; under the policy `live`
/// each branch, construct and call of a function that may pause takes time linear in its locals.
pub fn rewrite_module(
    alloc: Global,
    valid: &Valid,
    settings: &Settings,
) -> Result<Instrumented, RewriteFault>
    requires sizes { StrictSizeRule (module_of valid.now) }
    ensures { Instruments (module_of valid.now) (settings_of settings.now) result }
{
    let module = valid.module();
    if let Some(at) = reserved(module) {
        return Err(RewriteFault::Reserved(at));
    }
    let listed = listed_imports(alloc, valid, settings)?;
    let which = pausing_functions(alloc, valid, settings, &listed)?;
    let ids = ids_behind(module);
    let pass = Pass {
        valid,
        settings,
        which: &which,
        listed: &listed,
        ids: &ids,
    };
    let mut funcs = Vec::new(alloc);
    rewrite_funcs(alloc, &pass, &mut funcs)?;
    let inner = copy_around(alloc, module, funcs)?;
    let rewritten = with_parts(alloc, inner)?;
    Ok(Instrumented {
        module: rewritten,
        instrumented: which,
        listed,
    })
}

/// What `rewrite_module` answers, with the frames of the functions that may pause, which name each saved local for each numbered call.
pub fn asyncify_module(
    alloc: Global,
    valid: &Valid,
    settings: &Settings,
) -> Result<Rewritten, RewriteFault>
    requires sizes { StrictSizeRule (module_of valid.now) }
    ensures { Asyncifies (module_of valid.now) (settings_of settings.now) result }
{
    let made = rewrite_module(alloc, valid, settings)?;
    let ids = ids_behind(valid.module());
    let pass = Pass {
        valid,
        settings,
        which: &made.instrumented,
        listed: &made.listed,
        ids: &ids,
    };
    let layouts = func_layouts(alloc, &pass)?;
    Ok(Rewritten {
        module: made.module,
        layouts,
        instrumented: made.instrumented,
    })
}
