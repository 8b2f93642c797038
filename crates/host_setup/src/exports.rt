//! The functions that a module exports, by their names (standard, section 2.5.10).

ghost use Rattle.std.specs.Prelude.{◌≡◌, ℕ, List, IfOk, OnOk, None, Some, if◌then◌else◌};
ghost use Rattle.std.specs.Option.{option_or};
ghost use Rattle.wa_types.specs.Validity.{same_name};
ghost use Rattle.host_setup.specs.SetUp.{func_of, is_func};
ghost use Rattle.host_setup.specs.Views.{IsTableOf, named_in};

use std::alloc::{AllocError, Global};
use std::collections::BTreeMap;
use wa_types::{Export, Space};

/// The exports by their names, each with its function where it is one. The names are kept in order, so that whoever chooses
/// them can't make a look-up slow.
pub(crate) fn by_name<'m>(
    alloc: Global,
    exports: &'m [Export],
) -> Result<BTreeMap<&'m str, Option<u32>>, AllocError>
    ensures { IfOk result (λ names. IsTableOf names exports.now) }
{
    let mut names = BTreeMap::new(alloc);
    for export in exports {
        put_export(&mut names, export)?;
    }
    Ok(names)
}

// The first export of a name counts.
fn put_export<'m>(
    names: &mut BTreeMap<&'m str, Option<u32>>,
    export: &'m Export,
) -> Result<(), AllocError>
    ensures { OnOk result ((name : List ℕ) → named_in names.new name ≡ option_or (named_in names.old name) (if same_name export.now.name name then Some (func_of export.now) else None)) }
{
    let name = export.name.as_str();
    if names.contains_key(name) {
        return Ok(());
    }
    names.insert(name, func_of(export))?;
    Ok(())
}

fn func_of(export: &Export) -> Option<u32>
    ensures { result ≡ func_of export.now }
{
    match export.space {
        Space::Func => Some(export.index),
        _ => None,
    }
}
