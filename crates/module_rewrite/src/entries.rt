//! Functions put as entries of the code section (standard, section 5.5.13).

ghost use Rattle.std.specs.Prelude.{◌<◌, ◌^◌, drop, length, All, OnOk};
ghost use Rattle.wa_types.specs.declared.syntax.Func.{Func as FuncValue};
ghost use Rattle.wasm_encode.specs.Locals.{local_count};
ghost use Rattle.module_rewrite.specs.Entries.{value_entries, PutsEntries};

use std::alloc::{AllocError, Global};
use wa_types::Func;
use wasm_encode::CodeEntries;

/// Puts the functions from this place on as entries of the code section.
pub(crate) fn put_funcs(
    alloc: Global,
    out: &mut CodeEntries,
    funcs: &[Func],
    from: usize,
) -> Result<(), AllocError>
    requires locals { All (λ (f : FuncValue). local_count f.locals.items < 2 ^ 32) funcs.now }
    requires short { length (value_entries (drop from funcs.now)) < 2 ^ 64 }
    ensures { OnOk result (PutsEntries (value_entries (drop from funcs.now)) out.old out.new) }
{
    for index in from..funcs.len() {
        out.put(alloc, &funcs[index])?;
    }
    Ok(())
}
