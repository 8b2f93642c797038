//! Entries of the function, global, element, code and data sections (standard, sections 5.5.6, 5.5.9 and 5.5.12 to 5.5.14).

ghost use Rattle.std.specs.Prelude.{◌≡◌, ◌<◌, ◌^◌, ◌++◌, length, OnOk, ⊤};
ghost use Rattle.leb_numbers.specs.Leb.{shortest};
ghost use Rattle.wa_types.specs.View.{func_of, global_of, elem_of, segment_of};
ghost use Rattle.wa_types.specs.Encoding.{body_bytes, elem_bytes, global_bytes, segment_bytes, sized};
ghost use Rattle.wasm_encode.specs.Locals.{local_count};

use crate::code::{expression_len, put_expression};
use crate::entry::{Entry, put_vector, vector_len};
use crate::locals::{locals_len, put_locals};
use crate::numbers::{put_unsigned, sized_len, unsigned_len};
use crate::types::{IndexEntry, put_global_type};
use bytes::BytesMut;
use std::alloc::AllocError;
use wa_types::{Elem, Func, GlobalDef, Segment};

/// How many bytes a function's body takes, without those of its size: its locals and its expression
/// (standard, section 5.5.13).
pub fn body_len(func: &Func) -> u64
    requires locals { local_count func.now.locals.items < 2 ^ 32 }
    requires fits { length (body_bytes (func_of func.now)) < 2 ^ 64 }
    ensures { result ≡ length (body_bytes (func_of func.now)) }
{
    locals_len(&func.locals) + expression_len(&func.body)
}

/// Appends a function as an entry of the code section: its body behind its size (standard, section 5.5.13).
pub(crate) fn put_func(out: &mut BytesMut, func: &Func) -> Result<(), AllocError>
    requires locals { local_count func.now.locals.items < 2 ^ 32 }
    requires fits { length (sized (body_bytes (func_of func.now))) < 2 ^ 64 }
    ensures { OnOk result (out.new.items ≡ out.old.items ++ sized (body_bytes (func_of func.now))) }
{
    put_sized(out, func, body_len(func))
}

/// The same, where the body is known to take so many bytes.
pub(crate) fn put_sized(out: &mut BytesMut, func: &Func, size: u64) -> Result<(), AllocError>
    requires locals { local_count func.now.locals.items < 2 ^ 32 }
    requires size { size ≡ length (body_bytes (func_of func.now)) }
    ensures { OnOk result (out.new.items ≡ out.old.items ++ sized (body_bytes (func_of func.now))) }
{
    put_unsigned(out, size)?;
    put_locals(out, &func.locals)?;
    put_expression(out, &func.body)
}

/// An entry of the function section (standard, section 5.5.6).
pub struct FunctionEntry;

impl Entry for FunctionEntry {
    type Item = Func;

    ghost bytes = { λ f. shortest f.sort };

    ghost fits = { λ _. ⊤ };

    fn size(item: &Func) -> u64 {
        unsigned_len(item.sort as u64)
    }

    fn put(out: &mut BytesMut, item: &Func) -> Result<(), AllocError> {
        put_unsigned(out, item.sort as u64)
    }
}

/// An entry of the global section (standard, section 5.5.9).
pub struct GlobalEntry;

impl Entry for GlobalEntry {
    type Item = GlobalDef;

    ghost bytes = { λ g. global_bytes (global_of g) };

    ghost fits = { λ _. ⊤ };

    fn size(item: &GlobalDef) -> u64 {
        2 + expression_len(&item.init)
    }

    fn put(out: &mut BytesMut, item: &GlobalDef) -> Result<(), AllocError> {
        put_global_type(out, item.ty, item.mutable)?;
        put_expression(out, &item.init)
    }
}

/// An entry of the element section (standard, section 5.5.12).
pub struct ElementEntry;

impl Entry for ElementEntry {
    type Item = Elem;

    ghost bytes = { λ e. elem_bytes (elem_of e) };

    ghost fits = { λ _. ⊤ };

    fn size(item: &Elem) -> u64 {
        unsigned_len(item.table as u64)
            + expression_len(&item.offset)
            + vector_len::<IndexEntry>(&item.funcs)
    }

    fn put(out: &mut BytesMut, item: &Elem) -> Result<(), AllocError> {
        put_unsigned(out, item.table as u64)?;
        put_expression(out, &item.offset)?;
        put_vector::<IndexEntry>(out, &item.funcs)
    }
}

/// An entry of the code section: a body behind its size (standard, section 5.5.13).
pub struct CodeEntry;

impl Entry for CodeEntry {
    type Item = Func;

    ghost bytes = { λ f. sized (body_bytes (func_of f)) };

    ghost fits = { λ f. (local_count f.locals.items < 2 ^ 32) × (length (sized (body_bytes (func_of f))) < 2 ^ 64) };

    fn size(item: &Func) -> u64 {
        sized_len(body_len(item))
    }

    fn put(out: &mut BytesMut, item: &Func) -> Result<(), AllocError> {
        put_func(out, item)
    }
}

/// An entry of the data section (standard, section 5.5.14).
pub struct DataEntry;

impl Entry for DataEntry {
    type Item = Segment;

    ghost bytes = { λ s. segment_bytes (segment_of s) };

    ghost fits = { λ _. ⊤ };

    fn size(item: &Segment) -> u64 {
        unsigned_len(item.memory as u64)
            + expression_len(&item.offset)
            + sized_len(item.bytes.len() as u64)
    }

    fn put(out: &mut BytesMut, item: &Segment) -> Result<(), AllocError> {
        put_unsigned(out, item.memory as u64)?;
        put_expression(out, &item.offset)?;
        put_unsigned(out, item.bytes.len() as u64)?;
        out.extend_from_slice(&item.bytes)
    }
}
