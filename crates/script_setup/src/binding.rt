//! The devices to which a program's lines bind its imports.

ghost use Rattle.std.specs.Prelude.{◌≡◌, ◌++◌, [], ◌∷◌, ℕ, List, IfOk, OnOk, Some, map, if◌then◌else◌};
ghost use Rattle.std.specs.List.{filter_map};
ghost use Rattle.std.specs.Str.{bytes_eq};
ghost use Rattle.wa_types.specs.Modules.{imported_func};
ghost use Rattle.wa_types.specs.Pausing.{joined_name};
ghost use Rattle.wa_types.specs.View.{module_of};
ghost use Rattle.script_model.specs.Script.{BindText as PlainBind};
ghost use Rattle.script_reader.specs.Views.{bind_of};
ghost use Rattle.script_setup.specs.Bindings.{bindings, bound_imports, where_func};
ghost use Rattle.script_setup.specs.Places.{TellsDevices, device_at, place_in};

use crate::names::joined_text;
use script_reader::BindText;
use std::alloc::{AllocError, Global};
use std::collections::BTreeMap;
use wa_types::{Import, ImportKind, Module, Name};

/// For each function import of a module the device of the last line of its joined name, where there is one. Takes time near linear in
/// the imports and the lines.
pub fn bindings(
    alloc: Global,
    module: &Module,
    binds: &[BindText],
) -> Result<Vec<Option<Name>>, AllocError>
    ensures { IfOk result (λ list. list.items ≡ bindings (module_of «module».now) (map bind_of binds.now)) }
{
    let places = places_by_name(alloc, binds)?;
    let list = bound_imports(alloc, &module.imports, binds, &places)?;
    Ok(list)
}

// The place of the last line of each name. Names are kept in order, so that whoever chooses them can't make a look-up slow.
fn places_by_name<'t>(
    alloc: Global,
    binds: &'t [BindText],
) -> Result<BTreeMap<&'t str, usize>, AllocError>
    ensures { IfOk result (λ places. TellsDevices places (map bind_of binds.now) (map bind_of binds.now)) }
{
    let mut places = BTreeMap::new(alloc);
    for (place, bind) in binds.iter().enumerate() {
        put_place(&mut places, bind, place)?;
    }
    Ok(places)
}

fn put_place<'t>(
    places: &mut BTreeMap<&'t str, usize>,
    bind: &'t BindText,
    place: usize,
) -> Result<(), AllocError>
    ensures { OnOk result ((name : List ℕ) → place_in places.new name ≡ (if bytes_eq bind.now.import name then Some place else place_in places.old name)) }
{
    places.insert(bind.import.as_str(), place)?;
    Ok(())
}

// One for each function import.
fn bound_imports(
    alloc: Global,
    imports: &[Import],
    binds: &[BindText],
    places: &BTreeMap<&str, usize>,
) -> Result<Vec<Option<Name>>, AllocError>
    ensures { TellsDevices places.now (map bind_of binds.now) (map bind_of binds.now) → IfOk result (λ list. list.items ≡ bound_imports imports.now (map bind_of binds.now)) }
{
    let mut list = Vec::new(alloc);
    for import in imports {
        put_bound(alloc, &mut list, import, binds, places)?;
    }
    Ok(list)
}

// One more, for an import that is a function.
fn put_bound(
    alloc: Global,
    list: &mut Vec<Option<Name>>,
    import: &Import,
    binds: &[BindText],
    places: &BTreeMap<&str, usize>,
) -> Result<(), AllocError>
    ensures { OnOk result (list.new.items ≡ list.old.items
        ++ filter_map (λ (i : Import). where_func (imported_func i.kind) (device_at (map bind_of binds.now) (place_in places.now (joined_name i)))) (import.now ∷ [])) }
{
    match import.kind {
        ImportKind::Func(_) => {
            let joined = joined_text(alloc, import)?;
            let device = device_at(alloc, binds, place_of(places, joined.as_str()))?;
            list.push(device)?;
            Ok(())
        }
        _ => Ok(()),
    }
}

fn place_of(places: &BTreeMap<&str, usize>, name: &str) -> Option<usize>
    ensures { result ≡ place_in places.now name.now }
{
    match places.get(name) {
        Some(place) => Some(*place),
        None => None,
    }
}

// The device of the line at a place.
fn device_at(
    alloc: Global,
    binds: &[BindText],
    place: Option<usize>,
) -> Result<Option<Name>, AllocError>
    ensures { IfOk result (λ device. device ≡ device_at (map bind_of binds.now) place) }
{
    match place {
        Some(place) => device_of(alloc, binds, place),
        None => Ok(None),
    }
}

fn device_of(alloc: Global, binds: &[BindText], place: usize) -> Result<Option<Name>, AllocError>
    ensures { IfOk result (λ device. device ≡ device_at (map bind_of binds.now) (Some place)) }
{
    match binds.get(place) {
        Some(bind) => {
            let device = Name::new(alloc, bind.device.as_str())?;
            Ok(Some(device))
        }
        None => Ok(None),
    }
}
