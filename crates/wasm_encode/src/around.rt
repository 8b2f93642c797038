//! A module as bytes, around entries of the code section that were written beforehand (standard, sections 5.5.13 and 5.5.15).

ghost use Rattle.std.specs.Prelude.{◌≡◌, ◌<◌, ◌≤◌, ◌^◌, ◌++◌, ℕ, List, length, IfOk, OnOk};
ghost use Rattle.std.specs.Result.{IfErr};
ghost use Rattle.wa_types.specs.Encoding.{Enc};
ghost use Rattle.wa_types.specs.Syntax.{Module as PlainModule};
ghost use Rattle.wa_types.specs.View.{module_of};
ghost use Rattle.wasm_encode.specs.Around.{code_entries, code_section, section_around, HoldsEntries, IsAround, IsUnwritten};
ghost use Rattle.wasm_encode.specs.Modules.{known_section, FewLocals};

use crate::held::CodeEntries;
use crate::module::{PREAMBLE, known_len, put_known};
use crate::numbers::{put_unsigned, sized_len, unsigned_len};
use crate::sections::{LAST_ID, customs_len, put_customs};
use crate::{EncodeFault, LONGEST};
use bytes::BytesMut;
use std::alloc::{AllocError, Global};
use wa_types::Module;

const CODE_ID: u8 = 10;

/// The bytes of the module that is this one with other bodies and locals, the entries of whose code section were put
/// beforehand. So its functions needn't be in memory together.
///
/// `TooLong` says how many they are where they pass 67,108,864; `Memory` may come otherwise.
pub fn encode_around(
    alloc: Global,
    module: &Module,
    entries: &CodeEntries,
) -> Result<BytesMut, EncodeFault>
    requires { (p : PlainModule) × IsAround (module_of «module».now) p × HoldsEntries entries.now (code_entries p) }
    ensures ok { (p : PlainModule) → IsAround (module_of «module».now) p → HoldsEntries entries.now (code_entries p) → IfOk result (λ bytes. bytes.items ≡ Enc p) }
    ensures short { (p : PlainModule) → IsAround (module_of «module».now) p → HoldsEntries entries.now (code_entries p) → IfOk result (λ _. length (Enc p) ≤ 67108864) }
    ensures fault { (p : PlainModule) → IsAround (module_of «module».now) p → HoldsEntries entries.now (code_entries p) → IfErr result (IsUnwritten p) }
{
    let len = around_len(module, entries);
    if len > LONGEST {
        return Err(EncodeFault::TooLong { len });
    }
    let mut out = BytesMut::with_capacity(alloc, len as usize)?;
    put_around(&mut out, module, entries.bytes.as_slice())?;
    Ok(out)
}

/// How many bytes the module is written as.
fn around_len(module: &Module, entries: &CodeEntries) -> u64
    requires { (p : PlainModule) × IsAround (module_of «module».now) p × HoldsEntries entries.now (code_entries p) }
    ensures { (p : PlainModule) → IsAround (module_of «module».now) p → HoldsEntries entries.now (code_entries p) → result ≡ length (Enc p) }
{
    let mut len = 8;
    for id in 0..=LAST_ID {
        len += place_len(module, entries, id) + customs_len(&module.customs, id);
    }
    len
}

/// Appends the module.
fn put_around(out: &mut BytesMut, module: &Module, entries: &[u8]) -> Result<(), AllocError>
    requires { (p : PlainModule) × IsAround (module_of «module».now) p × (entries.now ≡ code_entries p) }
    ensures { (p : PlainModule) → IsAround (module_of «module».now) p → entries.now ≡ code_entries p → OnOk result (out.new.items ≡ out.old.items ++ Enc p) }
{
    out.extend_from_slice(&PREAMBLE)?;
    for id in 0..=LAST_ID {
        put_place(out, module, entries, id)?;
        put_customs(out, &module.customs, id)?;
    }
    Ok(())
}

/// How many bytes the known section of this id takes.
fn place_len(module: &Module, entries: &CodeEntries, id: u8) -> u64
    requires locals { FewLocals (module_of «module».now) }
    requires fits { (es : List ℕ) × HoldsEntries entries.now es × (length (section_around id (module_of «module».now) es) < 2 ^ 64) }
    ensures { (es : List ℕ) → HoldsEntries entries.now es → length (section_around id (module_of «module».now) es) < 2 ^ 64
        → result ≡ length (section_around id (module_of «module».now) es) }
{
    if id == CODE_ID {
        return code_len(module.funcs.len(), entries);
    }
    known_len(module, id)
}

/// Appends the known section of this id.
#[tactic(auto, using(crate::proofs::AroundLemmas::places))]
fn put_place(out: &mut BytesMut, module: &Module, entries: &[u8], id: u8) -> Result<(), AllocError>
    requires locals { FewLocals (module_of «module».now) }
    requires fits { length (section_around id (module_of «module».now) entries.now) < 2 ^ 64 }
    ensures { OnOk result (out.new.items ≡ out.old.items ++ section_around id (module_of «module».now) entries.now) }
{
    if id == CODE_ID {
        return put_code(out, module.funcs.len(), entries);
    }
    put_known(out, module, id)
}

/// How many bytes the code section of so many entries takes.
fn code_len(count: usize, entries: &CodeEntries) -> u64
    requires { (es : List ℕ) × HoldsEntries entries.now es × (length (code_section count es) < 2 ^ 64) }
    ensures { (es : List ℕ) → HoldsEntries entries.now es → length (code_section count es) < 2 ^ 64 → result ≡ length (code_section count es) }
{
    if count == 0 {
        return 0;
    }
    1 + sized_len(unsigned_len(count as u64) + entries.len)
}

/// Appends the code section of so many entries.
#[tactic(auto, using(crate::proofs::AroundLemmas::putting))]
fn put_code(out: &mut BytesMut, count: usize, entries: &[u8]) -> Result<(), AllocError>
    requires { length (code_section count entries.now) < 2 ^ 64 }
    ensures { OnOk result (out.new.items ≡ out.old.items ++ code_section count entries.now) }
{
    if count == 0 {
        return Ok(());
    }
    out.extend_from_slice(&[CODE_ID])?;
    put_unsigned(out, unsigned_len(count as u64) + entries.len() as u64)?;
    put_unsigned(out, count as u64)?;
    out.extend_from_slice(entries)
}
