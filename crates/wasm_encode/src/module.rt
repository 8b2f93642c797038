//! A module as bytes: the preamble, and its sections in order (standard, section 5.5.15).

ghost use Rattle.std.specs.Prelude.{◌≡◌, ◌<◌, ◌≤◌, ◌^◌, ◌++◌, length, map, All, OnOk};
ghost use Rattle.wa_types.specs.View.{module_of, custom_of};
ghost use Rattle.wa_types.specs.Encoding.{Enc};
ghost use Rattle.wasm_encode.specs.Modules.{known_section, FewLocals};

use crate::entries::{CodeEntry, DataEntry, ElementEntry, FunctionEntry, GlobalEntry};
use crate::sections::{
    LAST_ID, customs_len, put_customs, put_section, put_start, section_len, start_len,
};
use crate::types::{ExportEntry, ImportEntry, MemoryEntry, TableEntry, TypeEntry};
use bytes::BytesMut;
use std::alloc::AllocError;
use wa_types::Module;

/// The magic number and the version (standard, section 5.5.15).
pub(crate) const PREAMBLE: [u8; 8] = [0x00, 0x61, 0x73, 0x6D, 0x01, 0x00, 0x00, 0x00];

/// How many bytes a module is written as.
#[tactic(auto, using(crate::proofs::ModuleLemmas::measuring))]
pub fn module_len(module: &Module) -> u64
    requires locals { FewLocals (module_of «module».now) }
    requires fits { length (Enc (module_of «module».now)) < 2 ^ 64 }
    ensures { result ≡ length (Enc (module_of «module».now)) }
{
    let mut len = 8;
    for id in 0..=LAST_ID {
        len += known_len(module, id) + customs_len(&module.customs, id);
    }
    len
}

/// Appends a module.
#[tactic(auto, using(crate::proofs::ModuleLemmas::putting))]
pub fn put_module(out: &mut BytesMut, module: &Module) -> Result<(), AllocError>
    requires locals { FewLocals (module_of «module».now) }
    requires fits { length (Enc (module_of «module».now)) < 2 ^ 64 }
    ensures { OnOk result (out.new.items ≡ out.old.items ++ Enc (module_of «module».now)) }
{
    out.extend_from_slice(&PREAMBLE)?;
    for id in 0..=LAST_ID {
        put_known(out, module, id)?;
        put_customs(out, &module.customs, id)?;
    }
    Ok(())
}

/// How many bytes the known section of this id takes.
#[tactic(auto, using(crate::proofs::ModuleLemmas::section_map), unfolding(crate::specs::Modules::known_section))]
pub(crate) fn known_len(module: &Module, id: u8) -> u64
    requires locals { FewLocals (module_of «module».now) }
    requires fits { length (known_section id (module_of «module».now)) < 2 ^ 64 }
    ensures { result ≡ length (known_section id (module_of «module».now)) }
{
    match id {
        1 => section_len::<TypeEntry>(id, &module.types),
        2 => section_len::<ImportEntry>(id, &module.imports),
        3 => section_len::<FunctionEntry>(id, &module.funcs),
        4 => section_len::<TableEntry>(id, &module.tables),
        5 => section_len::<MemoryEntry>(id, &module.memories),
        6 => section_len::<GlobalEntry>(id, &module.globals),
        7 => section_len::<ExportEntry>(id, &module.exports),
        8 => start_len(module.start),
        9 => section_len::<ElementEntry>(id, &module.elems),
        10 => section_len::<CodeEntry>(id, &module.funcs),
        11 => section_len::<DataEntry>(id, &module.segments),
        _ => 0,
    }
}

/// Appends the known section of this id.
#[tactic(auto, using(crate::proofs::ModuleLemmas::section_map), unfolding(crate::specs::Modules::known_section))]
pub(crate) fn put_known(out: &mut BytesMut, module: &Module, id: u8) -> Result<(), AllocError>
    requires locals { FewLocals (module_of «module».now) }
    requires fits { length (known_section id (module_of «module».now)) < 2 ^ 64 }
    ensures { OnOk result (out.new.items ≡ out.old.items ++ known_section id (module_of «module».now)) }
{
    match id {
        1 => put_section::<TypeEntry>(out, id, &module.types),
        2 => put_section::<ImportEntry>(out, id, &module.imports),
        3 => put_section::<FunctionEntry>(out, id, &module.funcs),
        4 => put_section::<TableEntry>(out, id, &module.tables),
        5 => put_section::<MemoryEntry>(out, id, &module.memories),
        6 => put_section::<GlobalEntry>(out, id, &module.globals),
        7 => put_section::<ExportEntry>(out, id, &module.exports),
        8 => put_start(out, module.start),
        9 => put_section::<ElementEntry>(out, id, &module.elems),
        10 => put_section::<CodeEntry>(out, id, &module.funcs),
        11 => put_section::<DataEntry>(out, id, &module.segments),
        _ => Ok(()),
    }
}
