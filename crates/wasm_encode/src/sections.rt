//! Sections as bytes: those of entries, the start section, custom sections (standard, sections 5.5.2, 5.5.3 and 5.5.11).

ghost use Rattle.std.specs.Prelude.{◌≡◌, ◌<◌, ◌≤◌, ◌^◌, ◌++◌, ◌∷◌, [], length, map, All, OnOk};
ghost use Rattle.wa_types.specs.View.{custom_of};
ghost use Rattle.wa_types.specs.Encoding.{section, start_section, custom_bytes, customs_behind};

use crate::entry::{Entry, put_vector, vector_len};
use crate::numbers::{name_len, put_name, put_unsigned, sized_len, unsigned_len};
use bytes::BytesMut;
use std::alloc::AllocError;
use wa_types::Custom;

/// The greatest id of a section.
pub const LAST_ID: u8 = 11;

const START_ID: u8 = 8;

/// How many bytes a section of these entries takes (standard, section 5.5.2): none where there is no entry.
#[tactic(auto, using(crate::proofs::SectionLemmas::measuring))]
pub fn section_len<E: Entry>(id: u8, items: &[E::Item]) -> u64
    requires few { length (section id E.bytes items.now) < 2 ^ 64 }
    requires fits { All E.fits items.now }
    ensures { result ≡ length (section id E.bytes items.now) }
{
    if items.is_empty() {
        return 0;
    }
    1 + sized_len(vector_len::<E>(items))
}

/// Appends a section of these entries (standard, section 5.5.2), or nothing where there is no entry.
#[tactic(auto, using(crate::proofs::SectionLemmas::putting))]
pub fn put_section<E: Entry>(
    out: &mut BytesMut,
    id: u8,
    items: &[E::Item],
) -> Result<(), AllocError>
    requires few { length (section id E.bytes items.now) < 2 ^ 64 }
    requires fits { All E.fits items.now }
    ensures { OnOk result (out.new.items ≡ out.old.items ++ section id E.bytes items.now) }
{
    if items.is_empty() {
        return Ok(());
    }
    out.extend_from_slice(&[id])?;
    put_unsigned(out, vector_len::<E>(items))?;
    put_vector::<E>(out, items)
}

/// How many bytes the start section takes (standard, section 5.5.11): none where there is no start.
#[tactic(auto, using(leb_numbers::proofs::UnsignedSpelling::shortest_length))]
pub fn start_len(start: Option<u32>) -> u64
    ensures { result ≡ length (start_section start) }
{
    match start {
        None => 0,
        Some(func) => 1 + sized_len(unsigned_len(func as u64)),
    }
}

/// Appends the start section (standard, section 5.5.11), or nothing where there is no start.
pub fn put_start(out: &mut BytesMut, start: Option<u32>) -> Result<(), AllocError>
    ensures { OnOk result (out.new.items ≡ out.old.items ++ start_section start) }
{
    match start {
        None => Ok(()),
        Some(func) => {
            out.extend_from_slice(&[START_ID])?;
            put_unsigned(out, unsigned_len(func as u64))?;
            put_unsigned(out, func as u64)
        }
    }
}

/// How many bytes a custom section takes (standard, section 5.5.3).
pub fn custom_len(custom: &Custom) -> u64
    requires { length (custom_bytes (custom_of custom.now)) < 2 ^ 64 }
    ensures { result ≡ length (custom_bytes (custom_of custom.now)) }
{
    1 + sized_len(name_len(&custom.name) + custom.bytes.len() as u64)
}

/// Appends a custom section (standard, section 5.5.3).
pub fn put_custom(out: &mut BytesMut, custom: &Custom) -> Result<(), AllocError>
    requires { length (custom_bytes (custom_of custom.now)) < 2 ^ 64 }
    ensures { OnOk result (out.new.items ≡ out.old.items ++ custom_bytes (custom_of custom.now)) }
{
    out.extend_from_slice(&[0x00])?;
    put_unsigned(out, name_len(&custom.name) + custom.bytes.len() as u64)?;
    put_name(out, &custom.name)?;
    out.extend_from_slice(&custom.bytes)
}

/// How many bytes the custom sections take whose place is behind the sections of ids up to this one.
#[tactic(auto, using(crate::proofs::SectionLemmas::measuring_customs))]
pub fn customs_len(customs: &[Custom], id: u8) -> u64
    requires { length (customs_behind id (map custom_of customs.now)) < 2 ^ 64 }
    ensures { result ≡ length (customs_behind id (map custom_of customs.now)) }
{
    let mut len = 0;
    for custom in customs {
        if custom.after.min(LAST_ID) == id {
            len += custom_len(custom);
        }
    }
    len
}

/// Appends the custom sections whose place is behind the sections of ids up to this one.
#[tactic(auto, using(crate::proofs::SectionLemmas::putting_customs, crate::proofs::SectionLemmas::measuring_customs))]
pub fn put_customs(out: &mut BytesMut, customs: &[Custom], id: u8) -> Result<(), AllocError>
    requires { length (customs_behind id (map custom_of customs.now)) < 2 ^ 64 }
    ensures { OnOk result (out.new.items ≡ out.old.items ++ customs_behind id (map custom_of customs.now)) }
{
    for custom in customs {
        if custom.after.min(LAST_ID) == id {
            put_custom(out, custom)?;
        }
    }
    Ok(())
}
