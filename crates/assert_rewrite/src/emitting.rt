//! The bytes of a module that is rewritten with asserts.

ghost use Rattle.std.specs.Prelude.{◌≡◌, ◌≤◌, ◌^◌, None, length};
ghost use Rattle.wa_types.specs.Encoding.{Enc};
ghost use Rattle.wa_types.specs.Sizes.{StrictSizeRule};
ghost use Rattle.wa_types.specs.View.{module_of};
ghost use Rattle.call_graph.specs.Settings.{settings_of};
ghost use Rattle.local_spill.specs.Reserved.{reserved_at};
ghost use Rattle.assert_rewrite.specs.Emitting.{EmitsWithAsserts};

use crate::asserting::{Numbers, put_asserted};
use call_graph::Settings;
use local_spill::ids_behind;
use module_rewrite::{EmitFault, Emitted, RewriteFault, rewrite_module};
use std::alloc::Global;
use wasm_encode::{CodeEntries, encode_around};
use wasm_validate::Valid;

/// The bytes of the module rewritten so that it can stop in the middle of a call of a listed import and go on later, with a test behind
/// each call that has no number: an unwind that meets it traps. `Locals` comes exactly where a function that may pause would have more
/// than 50,000 parameters and locals, for the first; else `TooLong` exactly where there are more than 67,108,864 bytes: these are
/// counted, and no more than so many are held. Takes time linear in the module, as it is rewritten, and in what is answered.
pub fn emit_with_asserts(
    alloc: Global,
    valid: &Valid,
    settings: &Settings,
) -> Result<Emitted, EmitFault>
    requires sizes { StrictSizeRule (module_of valid.now) }
    requires free { reserved_at (module_of valid.now) ≡ None }
    requires few { length (module_of valid.now).funcs ≤ 100000 }
    requires short { length (Enc (module_of valid.now)) ≤ 2 ^ 36 }
    ensures { EmitsWithAsserts (module_of valid.now) (settings_of settings.now) result }
{
    let rewritten = match rewrite_module(alloc, valid, settings) {
        Ok(rewritten) => rewritten,
        Err(RewriteFault::Memory) => return Err(EmitFault::Memory),
        Err(RewriteFault::Locals { func, count }) => {
            return Err(EmitFault::Locals { func, count });
        }
        Err(RewriteFault::Reserved(_)) => unreachable!(),
    };
    let module = valid.module();
    let first = rewritten.instrumented.len() - module.funcs.len();
    let numbers = Numbers {
        which: rewritten.instrumented,
        listed: rewritten.listed,
        ignore_indirect: settings.ignore_indirect,
        state: ids_behind(module).state,
    };
    let whole = rewritten.module.module();
    let mut entries = CodeEntries::new(alloc);
    put_asserted(alloc, &mut entries, &whole.funcs, first, &numbers)?;
    let text = encode_around(alloc, whole, &entries)?;
    Ok(Emitted {
        text,
        instrumented: numbers.which,
    })
}
