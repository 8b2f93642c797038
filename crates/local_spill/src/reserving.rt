//! Reserved names: imports from the module `asyncify`, and exports under the names of the runtime's functions.

ghost use Rattle.std.specs.Prelude.{◌≡◌, ◌<◌, ◌^◌, length};
ghost use Rattle.wa_types.specs.View.{module_of};
ghost use Rattle.local_spill.specs.Reserved.{is_runtime_name, reserved_at, reserved_export, reserved_import};

use wa_types::{Export, Import, Module};

/// What makes a module reserved: an import from the module `asyncify`, or an export under one of the five
/// names, by its place in the list.
#[derive(Clone, Copy, Debug)]
pub enum ReservedAt {
    Import(u32),
    Export(u32),
}

/// The first import from the module `asyncify`, else the first export under one of the five names, if there
/// is one. Takes no memory.
pub fn reserved(module: &Module) -> Option<ReservedAt>
    requires imports { length «module».now.imports.items < 2 ^ 32 }
    requires exports { length «module».now.exports.items < 2 ^ 32 }
    ensures { result ≡ reserved_at (module_of «module».now) }
{
    if let Some(import) = first_import(&module.imports) {
        return Some(ReservedAt::Import(import as u32));
    }
    if let Some(export) = first_export(&module.exports) {
        return Some(ReservedAt::Export(export as u32));
    }
    None
}

fn first_import(imports: &[Import]) -> Option<usize>
    ensures { result ≡ reserved_import imports.now }
{
    imports
        .iter()
        .position(|import| import.module.as_str() == "asyncify")
}

fn first_export(exports: &[Export]) -> Option<usize>
    ensures { result ≡ reserved_export exports.now }
{
    exports
        .iter()
        .position(|export| is_runtime_name(export.name.as_str()))
}

// Whether a name is one of the five.
fn is_runtime_name(name: &str) -> bool
    ensures { result ≡ is_runtime_name name.now }
{
    name == "asyncify_start_unwind"
        || name == "asyncify_stop_unwind"
        || name == "asyncify_start_rewind"
        || name == "asyncify_stop_rewind"
        || name == "asyncify_get_state"
}
