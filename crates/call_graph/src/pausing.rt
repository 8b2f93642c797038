//! Which functions of a module may pause.

ghost use Rattle.std.specs.Prelude.{◌≡◌, IfOk};
ghost use Rattle.call_graph.specs.Settings.{settings_of};
ghost use Rattle.wa_types.specs.Pausing.{Listed, TellsMayPause};
ghost use Rattle.wa_types.specs.View.{module_of};

use crate::callers::Graph;
use crate::imports::listed_imports;
use crate::settings::Settings;
use crate::spread::spread;
use std::alloc::{AllocError, Global};
use wasm_validate::Valid;

/// Whether each function may pause, imports first, which may not: of a defined function, whether the code of it that
/// can be reached calls a listed import, calls through the table where that isn't ignored, or calls a function that
/// may pause. Takes time linear in the module, beside `listed_imports`.
pub fn may_pause(alloc: Global, valid: &Valid, settings: &Settings) -> Result<Vec<bool>, AllocError>
    ensures { IfOk result (λ v. TellsMayPause (module_of valid.now) (settings_of settings.now) v.items) }
{
    let listed = listed_imports(alloc, valid, settings)?;
    pausing_functions(alloc, valid, settings, &listed)
}

/// What `may_pause` answers, where it was found which imports are listed. Takes time linear in the module.
pub fn pausing_functions(
    alloc: Global,
    valid: &Valid,
    settings: &Settings,
    listed: &[bool],
) -> Result<Vec<bool>, AllocError>
    requires { listed.now ≡ Listed (module_of valid.now) (settings_of settings.now) }
    ensures { IfOk result (λ v. TellsMayPause (module_of valid.now) (settings_of settings.now) v.items) }
{
    let graph = Graph::of(alloc, valid.module(), listed, settings.ignore_indirect)?;
    let Graph {
        callers,
        mut pauses,
    } = graph;
    spread(alloc, &callers, &mut pauses)?;
    Ok(pauses)
}
