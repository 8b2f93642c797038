//! A module, from its tree to the bytes of the rewritten one.

ghost use Rattle.std.specs.Prelude.{◌≡◌, ◌<◌, ◌≤◌, ◌^◌, None, length, IfOk, IfErr};
ghost use Rattle.wa_types.specs.Encoding.{Enc};
ghost use Rattle.wa_types.specs.Runtime.{func_space, global_space, with_runtime};
ghost use Rattle.wa_types.specs.Sizes.{StrictSizeRule};
ghost use Rattle.wa_types.specs.View.{module_of};
ghost use Rattle.local_spill.specs.Reserved.{reserved_at};
ghost use Rattle.call_graph.specs.Settings.{settings_of};
ghost use Rattle.module_rewrite.specs.declared.byte_fault.EmitFault.TheVariants.{Memory};
ghost use Rattle.module_rewrite.specs.WholeBytes.{EmitsModule};

use crate::bare::drop_bodies;
use crate::byte_fault::EmitFault;
use crate::entries::put_funcs;
use crate::pass::rewrite_funcs;
use bytes::BytesMut;
use call_graph::{Settings, listed_imports, pausing_functions};
use func_rewrite::Pass;
use local_spill::{RuntimeFault, add_runtime, ids_behind};
use std::alloc::Global;
use wa_types::Module;
use wasm_encode::{CodeEntries, encode_around};
use wasm_validate::Valid;

/// The bytes of a module as it is rewritten, and which functions may pause, by one answer a function, imports first.
#[derive(Drop)]
pub struct Emitted {
    pub text: BytesMut,
    pub instrumented: Vec<bool>,
}

/// The module with the runtime's parts behind.
fn with_parts(alloc: Global, module: Module) -> Result<Module, EmitFault>
    requires types { length «module».types.items < 2 ^ 31 }
    requires imports { length «module».imports.items < 2 ^ 31 }
    requires funcs { func_space (module_of «module») < 2 ^ 31 }
    requires globals { global_space (module_of «module») < 2 ^ 31 }
    requires exports { length «module».exports.items < 2 ^ 31 }
    requires free { reserved_at (module_of «module») ≡ None }
    ensures done { IfOk result (λ p. module_of p ≡ with_runtime (module_of «module»)) }
    ensures fault { IfErr result (λ e. e ≡ Memory) }
{
    match add_runtime(alloc, module) {
        Ok(with) => Ok(with.module),
        Err(RuntimeFault::Memory) => Err(EmitFault::Memory),
        Err(RuntimeFault::Reserved(_)) => unreachable!(),
    }
}

/// The bytes of the module rewritten so that it can stop in the middle of a call of a listed import and go on later, and without
/// another tree in memory: that of one function at a time. `Locals` comes exactly where a function that may pause would have more
/// than 50,000 parameters and locals, for the first; else `TooLong` exactly where there are more than 67,108,864 bytes: these are
/// counted, and no more than so many are held. Takes time linear in the module and in what is answered; under the policy `live` each
/// branch, construct and call of a function that may pause takes time linear in its locals.
pub fn emit_module(alloc: Global, valid: Valid, settings: &Settings) -> Result<Emitted, EmitFault>
    requires sizes { StrictSizeRule (module_of valid) }
    requires free { reserved_at (module_of valid) ≡ None }
    requires few { length (module_of valid).funcs ≤ 100000 }
    requires short { length (Enc (module_of valid)) ≤ 2 ^ 36 }
    ensures { EmitsModule (module_of valid) (settings_of settings.now) result }
{
    let listed = listed_imports(alloc, &valid, settings)?;
    let which = pausing_functions(alloc, &valid, settings, &listed)?;
    let ids = ids_behind(valid.module());
    let pass = Pass {
        valid: &valid,
        settings,
        which: &which,
        listed: &listed,
        ids: &ids,
    };
    let mut entries = CodeEntries::new(alloc);
    rewrite_funcs(alloc, &pass, &mut entries)?;
    let module = valid.into_module();
    let own = module.funcs.len();
    let mut with = with_parts(alloc, module)?;
    put_funcs(alloc, &mut entries, &with.funcs, own)?;
    drop_bodies(alloc, &mut with)?;
    let text = encode_around(alloc, &with, &entries)?;
    Ok(Emitted {
        text,
        instrumented: which,
    })
}
