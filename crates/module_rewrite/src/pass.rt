//! One pass over the functions of a module: each as it is emitted, handed to a sink.

ghost use Rattle.std.specs.Prelude.{◌≡◌, ◌+◌, [], length};
ghost use Rattle.wa_types.specs.Modules.{func_imports};
ghost use Rattle.wa_types.specs.Pausing.{Listed};
ghost use Rattle.wa_types.specs.Sizes.{StrictSizeRule};
ghost use Rattle.wa_types.specs.View.{module_of};
ghost use Rattle.call_graph.specs.Settings.{settings_of};
ghost use Rattle.local_spill.specs.Ids.{ids_behind};
ghost use Rattle.module_rewrite.specs.Taking.{CanTake, Takes};

use crate::sink::FuncSink;
use func_rewrite::{FlatFault, Pass, flatten_func, write_by_policy};
use std::alloc::Global;

/// Hands each function to the sink as it is emitted, and drops what it was made from before the next.
pub(crate) fn rewrite_funcs<S: FuncSink>(
    alloc: Global,
    pass: &Pass<'_>,
    sink: &mut S,
) -> Result<(), FlatFault>
    requires sizes { StrictSizeRule (module_of pass.now.valid.now) }
    requires which { length pass.now.which.now ≡ func_imports (module_of pass.now.valid.now) + length (module_of pass.now.valid.now).funcs }
    requires listed { pass.now.listed.now ≡ Listed (module_of pass.now.valid.now) (settings_of pass.now.settings.now) }
    requires ids { pass.now.ids.now ≡ ids_behind (module_of pass.now.valid.now) }
    requires fits { CanTake (module_of pass.now.valid.now) (settings_of pass.now.settings.now) pass.now.which.now S.fits }
    requires empty { S.holds sink.old [] }
    ensures { Takes (module_of pass.now.valid.now) (settings_of pass.now.settings.now) pass.now.which.now (S.holds sink.new) result }
{
    let which = pass.which;
    let module = pass.valid.module();
    let imports = which.len() - module.funcs.len();
    for index in 0..module.funcs.len() {
        let source = &module.funcs[index];
        if !which[imports + index] {
            sink.keep(alloc, source)?;
            continue;
        }
        let mut flat = flatten_func(alloc, pass.valid, imports, index)?;
        let written = write_by_policy(alloc, pass, source, &mut flat)?;
        sink.take(alloc, written)?;
    }
    Ok(())
}
