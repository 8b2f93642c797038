//! The store of a new instance: its globals, table and memory, with the segments written (standard, section 4.5.4).

ghost use Rattle.std.specs.Prelude.{◌≡◌, ◌≤◌, ◌<◌, ◌*◌, ◌^◌, ◌++◌, IfOk, IfErr, None, Some, length, map, replicate};
ghost use Rattle.wa_types.specs.Memory.{page_size};
ghost use Rattle.wa_types.specs.Modules.{all_memories, all_tables};
ghost use Rattle.wa_types.specs.View.{global_of, elem_of, segment_of, module_of};
ghost use Rattle.wa_model.specs.Instantiation.{least_of, all_values, filled, elem_piece, byte_piece, opening, opens};
ghost use Rattle.wa_model.specs.Step.{first_max, memory_max};
ghost use Rattle.interp_state.specs.Faults.{FailsAs};
ghost use Rattle.interp_state.specs.View.{store_of};

use crate::segments::{defined_values, elem_out, put_elems, put_segments, segment_out};
use crate::spaces::all_tables;
use crate::store::Store;
use page_memory::Pages;
use std::alloc::{AllocError, Global};
use thiserror::Error;
use wa_types::{Limits, Module, Value};

/// The pages of memory that the host has.
const MOST_PAGES: u32 = 1_024;

/// The table entries that the host has.
const MOST_ENTRIES: u32 = 100_000;

/// Why an instance wasn't made.
#[derive(Clone, Copy, Debug, PartialEq, Eq, Error)]
pub enum MakeFault {
    #[error("out of memory")]
    Memory,
    /// The host has less than so many pages of memory or, where told, table entries.
    #[error("host limit {found}")]
    HostLimit { entries: bool, found: u32 },
    /// The element segment of this number doesn't fit the table.
    #[error("elements out {0}")]
    ElementsOut(u32),
    /// The data segment of this number doesn't fit the memory.
    #[error("bytes out {0}")]
    BytesOut(u32),
}

impl From<AllocError> for MakeFault {
    ghost use Rattle.std.specs.Prelude.{◌≡◌};
    ghost use Rattle.interp_state.specs.declared.make.MakeFault.TheVariants.{Memory};

    ghost from_gives = { λ _ fault. fault ≡ Memory };

    fn from(_error: AllocError) -> MakeFault {
        MakeFault::Memory
    }
}

/// The least size of the first memory or table.
pub fn least_of(limits: &[Limits]) -> u32
    ensures { result ≡ least_of limits.now }
{
    match limits.split_first() {
        Some((first, _)) => first.min,
        None => 0,
    }
}

/// The greatest size of the first memory, where it is told.
pub fn most_of(limits: &[Limits]) -> Option<u32>
    ensures { result ≡ first_max limits.now }
{
    match limits.split_first() {
        Some((first, _)) => first.max,
        None => None,
    }
}

/// The values of all globals.
fn all_values(alloc: Global, source: &Module, imports: &[Value]) -> Result<Vec<Value>, AllocError>
    ensures { IfOk result (λ v. v.items ≡ all_values imports.now (module_of source.now)) }
{
    let mut values = Vec::from_slice(alloc, imports)?;
    let defined = defined_values(alloc, imports, &source.globals)?;
    values.extend_from_slice(&defined)?;
    Ok(values)
}

/// A table of which no element is initialised.
pub(crate) fn make_table(alloc: Global, entries: u32) -> Result<Vec<Option<u32>>, AllocError>
    ensures { IfOk result (λ v. v.items ≡ replicate entries None) }
{
    let mut table = Vec::new(alloc);
    table.resize(entries as usize, None)?;
    Ok(table)
}

/// The store, with all segments written where all of them fit.
fn fill(
    alloc: Global,
    source: &Module,
    globals: Vec<Value>,
    pages: u32,
    most: Option<u32>,
    entries: u32,
) -> Result<Store, MakeFault>
    requires pages { pages ≤ 1024 }
    requires elems { length source.now.elems.items < 2 ^ 32 }
    requires segments { length source.now.segments.items < 2 ^ 32 }
    ensures ok { IfOk result (λ s. filled globals.items (replicate (pages * page_size) 0) (replicate entries None) (map (elem_piece globals.items) (map elem_of source.now.elems.items))
        (map (byte_piece globals.items) (map segment_of source.now.segments.items)) ≡ opens (store_of s)) }
    ensures max { IfOk result (λ s. s.memory.max ≡ most) }
    ensures err { IfErr result (FailsAs (filled globals.items (replicate (pages * page_size) 0) (replicate entries None)
        (map (elem_piece globals.items) (map elem_of source.now.elems.items)) (map (byte_piece globals.items) (map segment_of source.now.segments.items)))) }
{
    let mut table = make_table(alloc, entries)?;
    let mut memory = Pages::new(alloc, pages, most)?;
    if let Some(i) = elem_out(&globals, &source.elems, entries as usize) {
        return Err(MakeFault::ElementsOut(i as u32));
    }
    if let Some(i) = segment_out(&globals, &source.segments, memory.bytes().len()) {
        return Err(MakeFault::BytesOut(i as u32));
    }
    put_elems(alloc, &globals, &source.elems, &mut table)?;
    put_segments(&globals, &source.segments, &mut memory);
    Ok(Store {
        globals,
        memory,
        table,
    })
}

/// The store of a new instance, whose memories have these limits and whose imported globals these values.
pub fn open(
    alloc: Global,
    source: &Module,
    memories: &[Limits],
    imports: &[Value],
) -> Result<Store, MakeFault>
    requires memories { memories.now ≡ all_memories (module_of source.now) }
    requires elems { length source.now.elems.items < 2 ^ 32 }
    requires segments { length source.now.segments.items < 2 ^ 32 }
    ensures ok { IfOk result (λ s. opening (module_of source.now) imports.now ≡ opens (store_of s)) }
    ensures max { IfOk result (λ s. s.memory.max ≡ memory_max (module_of source.now)) }
    ensures err { IfErr result (FailsAs (opening (module_of source.now) imports.now)) }
{
    let pages = least_of(memories);
    if pages > MOST_PAGES {
        let entries = false;
        let found = pages;
        return Err(MakeFault::HostLimit { entries, found });
    }
    let tables = all_tables(alloc, source)?;
    let entries = least_of(&tables);
    if entries > MOST_ENTRIES {
        let found = entries;
        let entries = true;
        return Err(MakeFault::HostLimit { entries, found });
    }
    let most = most_of(memories);
    let values = all_values(alloc, source, imports)?;
    fill(alloc, source, values, pages, most, entries)
}
