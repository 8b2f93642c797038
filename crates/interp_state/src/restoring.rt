//! The store of an instance that is put back: its globals and memory as they are told, its table as instantiation makes it
//! (standard, section 4.5.4).

ghost use Rattle.std.specs.Prelude.{◌≡◌, IfOk, None, map};
ghost use Rattle.wa_types.specs.Memory.{IsWholePages};
ghost use Rattle.wa_types.specs.Modules.{all_memories, all_tables};
ghost use Rattle.wa_types.specs.View.{module_of};
ghost use Rattle.wa_model.specs.Instantiation.{least_of, elem_piece, first_out};
ghost use Rattle.wa_model.specs.Step.{memory_max};
ghost use Rattle.interp_state.specs.Making.{restored_store, table_with};
ghost use Rattle.interp_state.specs.View.{store_of};

use crate::make::{least_of, make_table, most_of};
use crate::segments::put_elems;
use crate::spaces::all_tables;
use crate::store::Store;
use page_memory::Pages;
use std::alloc::{AllocError, Global};
use wa_types::{Limits, Module, Value};

/// The store with these globals and this memory, of a module whose memories have these limits. All element segments fit its table.
pub fn restore(
    alloc: Global,
    source: &Module,
    memories: &[Limits],
    globals: &[Value],
    memory: &[u8],
) -> Result<Store, AllocError>
    requires memories { memories.now ≡ all_memories (module_of source.now) }
    requires elems { first_out (least_of (all_tables (module_of source.now))) 0 (map (elem_piece globals.now) (module_of source.now).elems) ≡ None }
    requires whole { IsWholePages memory.now }
    ensures store { IfOk result (λ s. store_of s ≡ restored_store (module_of source.now) globals.now memory.now) }
    ensures max { IfOk result (λ s. s.memory.max ≡ memory_max (module_of source.now)) }
{
    let table = filled_table(alloc, source, globals)?;
    let memory = Pages::from_slice(alloc, memory, most_of(memories))?;
    let globals = Vec::from_slice(alloc, globals)?;
    Ok(Store {
        globals,
        memory,
        table,
    })
}

/// The table with all element segments written, whose offsets see these globals.
fn filled_table(
    alloc: Global,
    source: &Module,
    globals: &[Value],
) -> Result<Vec<Option<u32>>, AllocError>
    requires { first_out (least_of (all_tables (module_of source.now))) 0 (map (elem_piece globals.now) (module_of source.now).elems) ≡ None }
    ensures { IfOk result (λ v. v.items ≡ table_with (module_of source.now) globals.now) }
{
    let tables = all_tables(alloc, source)?;
    let mut table = make_table(alloc, least_of(&tables))?;
    put_elems(alloc, globals, &source.elems, &mut table)?;
    Ok(table)
}
