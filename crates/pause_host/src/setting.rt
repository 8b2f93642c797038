//! What stays of a program on its way, taken from its module and its plan.

ghost use Rattle.std.specs.Prelude.{◌≡◌, ◌++◌, [], ◌∷◌, IfOk, OnOk, map, slice_get};
ghost use Rattle.std.specs.List.{cons_option, find};
ghost use Rattle.std.specs.Option.{option_copied};
ghost use Rattle.std.specs.Str.{bytes_eq};
ghost use Rattle.wa_types.specs.Modules.{imported, imported_func, type_at};
ghost use Rattle.wa_types.specs.Pausing.{joined_name};
ghost use Rattle.wa_types.specs.Syntax.{Module as PlainModule};
ghost use Rattle.wa_types.specs.Validity.{same_name};
ghost use Rattle.wa_types.specs.View.{module_of};
ghost use Rattle.wa_model.specs.Protocol.{exports_of, index_of};
ghost use Rattle.world_model.specs.World.{base_names, import_names, name_if};
ghost use Rattle.pause_host.specs.Views.{exports_in};
ghost use Rattle.pause_host.specs.declared.stages.HostImport.{HostImport};
ghost use Rattle.pause_host.specs.Settings.{MakesSetting};

use crate::stages::{Exports, HostImport, Setting};
use std::alloc::{AllocError, Global};
use wa_model::Area;
use wa_types::{Export, Import, ImportKind, Module, Name, ValType};

/// What stays of a program on its way. Answers leave no range alone but its area.
pub fn setting_of(
    alloc: Global,
    module: &Module,
    listed: Option<Vec<bool>>,
    binds: Vec<Option<Name>>,
    area: Area,
    steps: u64,
) -> Result<Setting, AllocError>
    ensures { IfOk result (MakesSetting (module_of «module».now) listed binds area steps) }
{
    let others = Vec::new(alloc);
    Ok(Setting {
        alloc,
        imports: host_imports(alloc, module)?,
        binds,
        listed,
        area,
        others,
        exports: exports_of(&module.exports),
        steps,
    })
}

// The functions of the five exports.
fn exports_of(exports: &[Export]) -> Exports
    ensures { (p : PlainModule) → p.exports ≡ exports.now → exports_in result ≡ exports_of p }
{
    let start_unwind = exported_as(exports, "asyncify_start_unwind");
    let stop_unwind = exported_as(exports, "asyncify_stop_unwind");
    let start_rewind = exported_as(exports, "asyncify_start_rewind");
    let stop_rewind = exported_as(exports, "asyncify_stop_rewind");
    let get_state = exported_as(exports, "asyncify_get_state");
    Exports {
        start_unwind,
        stop_unwind,
        start_rewind,
        stop_rewind,
        get_state,
    }
}

// The index that is exported under a name.
fn exported_as(exports: &[Export], name: &str) -> u32
    ensures { result ≡ index_of (find (λ e. same_name e.name name.now) exports.now) }
{
    match find_export(exports, name) {
        Some(export) => export.index,
        None => 0,
    }
}

fn find_export<'m>(exports: &'m [Export], name: &str) -> Option<&'m Export>
    ensures { option_copied result ≡ find (λ e. bytes_eq e.name name.now) exports.now }
{
    exports.iter().find(|export| export.name.as_str() == name)
}

// The imported functions, with their names and their results.
fn host_imports(alloc: Global, module: &Module) -> Result<Vec<HostImport>, AllocError>
    ensures names { IfOk result (λ v. map (λ (i : HostImport). i.name) v.items ≡ import_names (module_of «module».now)) }
    ensures bases { IfOk result (λ v. map (λ (i : HostImport). i.base) v.items ≡ base_names (module_of «module».now)) }
    ensures results { IfOk result (λ v. map (λ (i : HostImport). i.result) v.items ≡ map (λ sort. slice_get (type_at (module_of «module».now) sort).results 0)
        (imported imported_func (module_of «module».now))) }
{
    let mut imports = Vec::new(alloc);
    for import in &module.imports {
        put_import(alloc, module, import, &mut imports)?;
    }
    Ok(imports)
}

// Puts an import behind others where it is a function.
fn put_import(
    alloc: Global,
    module: &Module,
    import: &Import,
    imports: &mut Vec<HostImport>,
) -> Result<(), AllocError>
    ensures names { OnOk result (map (λ (i : HostImport). i.name) imports.new.items ≡ map (λ (i : HostImport). i.name) imports.old.items
        ++ cons_option (name_if (joined_name import.now) (imported_func import.now.kind)) []) }
    ensures bases { OnOk result (map (λ (i : HostImport). i.base) imports.new.items ≡ map (λ (i : HostImport). i.base) imports.old.items
        ++ cons_option (name_if import.now.base (imported_func import.now.kind)) []) }
    ensures results { OnOk result (map (λ (i : HostImport). i.result) imports.new.items ≡ map (λ (i : HostImport). i.result) imports.old.items
        ++ map (λ sort. slice_get (type_at (module_of «module».now) sort).results 0) (cons_option (imported_func import.now.kind) [])) }
{
    match import.kind {
        ImportKind::Func(sort) => {
            let name = joined_name(alloc, import)?;
            let base = Name::new(alloc, import.base.as_str())?;
            let result = result_of(module, sort);
            imports.push(HostImport { name, base, result })?;
            Ok(())
        }
        _ => Ok(()),
    }
}

// The result of a type.
fn result_of(module: &Module, sort: u32) -> Option<ValType>
    ensures { result ≡ slice_get (type_at (module_of «module».now) sort).results 0 }
{
    match module.types.get(sort as usize) {
        None => None,
        Some(ty) => ty.results.first().copied(),
    }
}

// The joined name of an import: its module's name, a dot, and its base name.
fn joined_name(alloc: Global, import: &Import) -> Result<Name, AllocError>
    ensures { IfOk result (λ name. name ≡ joined_name import.now) }
{
    let mut text = String::from_str(alloc, import.module.as_str())?;
    text.push_str(".")?;
    text.push_str(import.base.as_str())?;
    Name::new(alloc, &text)
}
