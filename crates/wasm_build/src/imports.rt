//! Entries of the import and export sections from bytes (standard, sections 5.5.5 and 5.5.10).

ghost use Rattle.std.specs.Prelude.{◌<◌, ◌≤◌, ◌∷◌, [], length};
ghost use Rattle.wa_types.specs.declared.syntax.Import.{Import};
ghost use Rattle.wa_types.specs.declared.syntax.Export.{Export};
ghost use Rattle.wa_types.specs.Encoding.{space_byte};
ghost use Rattle.wa_types.specs.Spells.{Exactly, ImportKindOf, ImportOf, ExportOf};
ghost use Rattle.wa_types.specs.Reading.{IsKind, IsImport};
ghost use Rattle.wasm_build.specs.Builds.{Builds, SpelledAs};

use crate::build_types::BuildFault;
use crate::entry::Entry;
use crate::types::{MemoryEntry, TableEntry, global_type, name};
use std::alloc::Global;
use wa_types::{Export, Import, ImportKind, Space};
use wasm_grammar::Cursor;

// What is imported (standard, section 5.5.5).
fn import_kind(alloc: Global, input: &mut Cursor<'_>) -> Result<ImportKind, BuildFault>
    ensures built { Builds (λ k. k) (SpelledAs ImportKindOf IsKind) result input.old input.new }
    ensures left { length input.new.left ≤ length input.old.left }
{
    match input.byte()? {
        0x00 => Ok(ImportKind::Func(input.number()?)),
        0x01 => Ok(ImportKind::Table(TableEntry::read(alloc, input)?)),
        0x02 => Ok(ImportKind::Memory(MemoryEntry::read(alloc, input)?)),
        0x03 => {
            let (ty, mutable) = global_type(alloc, input)?;
            Ok(ImportKind::Global(ty, mutable))
        }
        _ => Err(BuildFault::NotSpelled),
    }
}

/// An import (standard, section 5.5.5).
pub struct ImportEntry;

impl Entry for ImportEntry {
    type Item = Import;

    ghost plain = { Import };

    ghost view = { λ i. i };

    ghost spelled = { SpelledAs ImportOf IsImport };

    fn read(alloc: Global, input: &mut Cursor<'_>) -> Result<Import, BuildFault> {
        let module = name(alloc, input)?;
        let base = name(alloc, input)?;
        let kind = import_kind(alloc, input)?;
        Ok(Import { module, base, kind })
    }
}

// The index space of an export (standard, section 5.5.10).
fn space(input: &mut Cursor<'_>) -> Result<Space, BuildFault>
    ensures built { Builds (λ s. s) (λ s. Exactly (space_byte s ∷ [])) result input.old input.new }
    ensures left { length input.new.left ≤ length input.old.left }
{
    match input.byte()? {
        0x00 => Ok(Space::Func),
        0x01 => Ok(Space::Table),
        0x02 => Ok(Space::Memory),
        0x03 => Ok(Space::Global),
        _ => Err(BuildFault::NotSpelled),
    }
}

/// An export (standard, section 5.5.10).
pub struct ExportEntry;

impl Entry for ExportEntry {
    type Item = Export;

    ghost plain = { Export };

    ghost view = { λ e. e };

    ghost spelled = { ExportOf };

    fn read(alloc: Global, input: &mut Cursor<'_>) -> Result<Export, BuildFault> {
        let name = name(alloc, input)?;
        let space = space(input)?;
        let index = input.number()?;
        Ok(Export { name, space, index })
    }
}
