//! Types as bytes, and entries of the type, import, table, memory and export sections (standard, sections 5.3, 5.5.4, 5.5.5, 5.5.7,
//! 5.5.8 and 5.5.10).

ghost use Rattle.std.specs.Prelude.{◌≡◌, ◌≤◌, ◌++◌, [], ◌∷◌, length, OnOk, ⊤};
ghost use Rattle.leb_numbers.specs.Leb.{shortest};
ghost use Rattle.wa_types.specs.View.{func_type_of};
ghost use Rattle.wa_types.specs.Encoding.{type_byte, block_type_byte, func_type_bytes, limits_bytes, table_bytes, global_type_bytes, import_kind_bytes, import_bytes, space_byte, export_bytes};

use crate::entry::{Entry, put_vector, vector_len};
use crate::numbers::{name_len, put_name, put_unsigned, unsigned_len};
use bytes::BytesMut;
use std::alloc::AllocError;
use wa_types::{Export, FuncType, Import, ImportKind, Limits, Space, ValType};

/// The byte of a value type (standard, section 5.3.1).
pub fn val_type_byte(ty: ValType) -> u8
    ensures { result ≡ type_byte ty }
{
    match ty {
        ValType::I32 => 0x7F,
        ValType::I64 => 0x7E,
    }
}

/// The byte of a block's result (standard, section 5.3.2).
pub fn result_byte(result_type: Option<ValType>) -> u8
    ensures { result ≡ block_type_byte result_type }
{
    match result_type {
        None => 0x40,
        Some(ty) => val_type_byte(ty),
    }
}

/// A value type in a vector of them.
pub struct ValTypeEntry;

impl Entry for ValTypeEntry {
    type Item = ValType;

    ghost bytes = { λ t. type_byte t ∷ [] };

    ghost fits = { λ _. ⊤ };

    fn size(_item: &ValType) -> u64 {
        1
    }

    fn put(out: &mut BytesMut, item: &ValType) -> Result<(), AllocError> {
        out.extend_from_slice(&[val_type_byte(*item)])
    }
}

/// An index in a vector of them.
pub struct IndexEntry;

impl Entry for IndexEntry {
    type Item = u32;

    ghost bytes = { λ x. shortest x };

    ghost fits = { λ _. ⊤ };

    fn size(item: &u32) -> u64 {
        unsigned_len(*item as u64)
    }

    fn put(out: &mut BytesMut, item: &u32) -> Result<(), AllocError> {
        put_unsigned(out, *item as u64)
    }
}

/// An entry of the type section (standard, section 5.5.4).
pub struct TypeEntry;

impl Entry for TypeEntry {
    type Item = FuncType;

    ghost bytes = { λ t. func_type_bytes (func_type_of t) };

    ghost fits = { λ _. ⊤ };

    fn size(item: &FuncType) -> u64 {
        1 + vector_len::<ValTypeEntry>(&item.params) + vector_len::<ValTypeEntry>(&item.results)
    }

    fn put(out: &mut BytesMut, item: &FuncType) -> Result<(), AllocError> {
        out.extend_from_slice(&[0x60])?;
        put_vector::<ValTypeEntry>(out, &item.params)?;
        put_vector::<ValTypeEntry>(out, &item.results)
    }
}

/// How many bytes limits take (standard, section 5.3.4).
pub fn limits_len(limits: Limits) -> u64
    ensures exact { result ≡ length (limits_bytes limits) }
    ensures few { result ≤ 21 }
{
    let min = unsigned_len(limits.min as u64);
    match limits.max {
        None => 1 + min,
        Some(max) => 1 + min + unsigned_len(max as u64),
    }
}

/// Appends limits (standard, section 5.3.4).
pub fn put_limits(out: &mut BytesMut, limits: Limits) -> Result<(), AllocError>
    ensures { OnOk result (out.new.items ≡ out.old.items ++ limits_bytes limits) }
{
    match limits.max {
        None => {
            out.extend_from_slice(&[0x00])?;
            put_unsigned(out, limits.min as u64)
        }
        Some(max) => {
            out.extend_from_slice(&[0x01])?;
            put_unsigned(out, limits.min as u64)?;
            put_unsigned(out, max as u64)
        }
    }
}

/// An entry of the table section (standard, section 5.5.7).
pub struct TableEntry;

impl Entry for TableEntry {
    type Item = Limits;

    ghost bytes = { λ l. table_bytes l };

    ghost fits = { λ _. ⊤ };

    fn size(item: &Limits) -> u64 {
        1 + limits_len(*item)
    }

    fn put(out: &mut BytesMut, item: &Limits) -> Result<(), AllocError> {
        out.extend_from_slice(&[0x70])?;
        put_limits(out, *item)
    }
}

/// An entry of the memory section (standard, section 5.5.8).
pub struct MemoryEntry;

impl Entry for MemoryEntry {
    type Item = Limits;

    ghost bytes = { λ l. limits_bytes l };

    ghost fits = { λ _. ⊤ };

    fn size(item: &Limits) -> u64 {
        limits_len(*item)
    }

    fn put(out: &mut BytesMut, item: &Limits) -> Result<(), AllocError> {
        put_limits(out, *item)
    }
}

/// Appends the type of a global (standard, section 5.3.7).
pub fn put_global_type(out: &mut BytesMut, ty: ValType, mutable: bool) -> Result<(), AllocError>
    ensures { OnOk result (out.new.items ≡ out.old.items ++ global_type_bytes ty mutable) }
{
    out.extend_from_slice(&[val_type_byte(ty), u8::from(mutable)])
}

/// How many bytes the kind of an import takes (standard, section 5.5.5).
pub fn import_kind_len(kind: ImportKind) -> u64
    ensures { result ≡ length (import_kind_bytes kind) }
{
    match kind {
        ImportKind::Func(index) => 1 + unsigned_len(index as u64),
        ImportKind::Table(limits) => 2 + limits_len(limits),
        ImportKind::Memory(limits) => 1 + limits_len(limits),
        ImportKind::Global(_, _) => 3,
    }
}

/// Appends the kind of an import (standard, section 5.5.5).
pub fn put_import_kind(out: &mut BytesMut, kind: ImportKind) -> Result<(), AllocError>
    ensures { OnOk result (out.new.items ≡ out.old.items ++ import_kind_bytes kind) }
{
    match kind {
        ImportKind::Func(index) => {
            out.extend_from_slice(&[0x00])?;
            put_unsigned(out, index as u64)
        }
        ImportKind::Table(limits) => {
            out.extend_from_slice(&[0x01, 0x70])?;
            put_limits(out, limits)
        }
        ImportKind::Memory(limits) => {
            out.extend_from_slice(&[0x02])?;
            put_limits(out, limits)
        }
        ImportKind::Global(ty, mutable) => {
            out.extend_from_slice(&[0x03])?;
            put_global_type(out, ty, mutable)
        }
    }
}

/// An entry of the import section (standard, section 5.5.5).
pub struct ImportEntry;

impl Entry for ImportEntry {
    type Item = Import;

    ghost bytes = { λ i. import_bytes i };

    ghost fits = { λ _. ⊤ };

    fn size(item: &Import) -> u64 {
        name_len(&item.module) + name_len(&item.base) + import_kind_len(item.kind)
    }

    fn put(out: &mut BytesMut, item: &Import) -> Result<(), AllocError> {
        put_name(out, &item.module)?;
        put_name(out, &item.base)?;
        put_import_kind(out, item.kind)
    }
}

/// The byte of an index space (standard, section 5.5.10).
pub fn index_space_byte(space: Space) -> u8
    ensures { result ≡ space_byte space }
{
    match space {
        Space::Func => 0x00,
        Space::Table => 0x01,
        Space::Memory => 0x02,
        Space::Global => 0x03,
    }
}

/// An entry of the export section (standard, section 5.5.10).
pub struct ExportEntry;

impl Entry for ExportEntry {
    type Item = Export;

    ghost bytes = { λ e. export_bytes e };

    ghost fits = { λ _. ⊤ };

    fn size(item: &Export) -> u64 {
        name_len(&item.name) + 1 + unsigned_len(item.index as u64)
    }

    fn put(out: &mut BytesMut, item: &Export) -> Result<(), AllocError> {
        put_name(out, &item.name)?;
        out.extend_from_slice(&[index_space_byte(item.space)])?;
        put_unsigned(out, item.index as u64)
    }
}
