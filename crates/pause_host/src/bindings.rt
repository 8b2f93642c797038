//! The bindings of function imports to devices, where there are none.

ghost use Rattle.std.specs.Prelude.{◌≡◌, ◌++◌, [], IfOk, None, OnOk, map};
ghost use Rattle.std.specs.List.{cons_option};
ghost use Rattle.wa_types.specs.Modules.{imported_func};
ghost use Rattle.wa_types.specs.View.{module_of};
ghost use Rattle.pause_host.specs.Settings.{none_bound};

use std::alloc::{AllocError, Global};
use wa_types::{Import, ImportKind, Module, Name};

/// The bindings of a plan whose function imports are bound to no device.
pub fn unbound(alloc: Global, module: &Module) -> Result<Vec<Option<Name>>, AllocError>
    ensures { IfOk result (λ binds. binds.items ≡ none_bound (module_of «module».now)) }
{
    let mut binds = Vec::new(alloc);
    for import in &module.imports {
        put_none(import, &mut binds)?;
    }
    Ok(binds)
}

// One more, for an import that is a function.
fn put_none(import: &Import, binds: &mut Vec<Option<Name>>) -> Result<(), AllocError>
    ensures { OnOk result (binds.new.items ≡ binds.old.items ++ map (λ sort. None) (cons_option (imported_func import.now.kind) [])) }
{
    match import.kind {
        ImportKind::Func(_) => {
            binds.push(None)?;
            Ok(())
        }
        _ => Ok(()),
    }
}
