//! Names of exports.

ghost use Rattle.std.specs.Prelude.{◌≡◌, map, IfOk};
ghost use Rattle.wa_types.specs.declared.syntax.Export.{Export};
ghost use Rattle.wa_types.specs.Validity.{all_differ};

use std::alloc::{AllocError, Global};
use std::collections::BTreeSet;
use wa_types::Export;

/// No two exports have one name (standard, section 3.4.10). The names are kept in order, so that whoever chooses them can't
/// make this slow: a file of n names takes at most some n log n comparisons.
pub(crate) fn names_differ(alloc: Global, exports: &[Export]) -> Result<bool, AllocError>
    ensures { IfOk result (λ yes. yes ≡ all_differ (map (λ (e : Export). e.name) exports.now)) }
{
    let mut seen = BTreeSet::new(alloc);
    for export in exports {
        if !seen.insert(export.name.as_str())? {
            return Ok(false);
        }
    }
    Ok(true)
}
