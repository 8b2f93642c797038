//! Snapshots as bytes.

ghost use Rattle.std.specs.Prelude.{◌≡◌, ℕ, [], ◌∷◌, ◌*◌, ◌<◌, ◌^◌, ◌++◌, IfOk, OnOk, length, All, map};
ghost use Rattle.std.specs.List.{flat_map};
ghost use Rattle.wa_types.specs.Memory.{bytes_of, page_size};
ghost use Rattle.wa_types.specs.Sizes.{value_fits};
ghost use Rattle.snapshot_store.specs.Snapshots.{PartsFit, RecordFits, SnapText, global_bytes, parts_bytes, record_bytes};
ghost use Rattle.snapshot_store.specs.Views.{parts_of, record_of, snapshot_of};
ghost use Rattle.snapshot_store.specs.Parts.{CountsFit};

use crate::snapshot::{PausedParts, ProgramRecord, Snapshot};
use std::alloc::{AllocError, Global};
use wa_types::Value;

/// The bytes of a snapshot. There are fewer than 2^32 programs, and fewer globals of each; each memory has `pages` times
/// 65,536 bytes.
pub fn write(alloc: Global, snap: &Snapshot) -> Result<Vec<u8>, AllocError>
    requires few { length snap.now.programs.items < 2 ^ 32 }
    requires each { All CountsFit (map record_of snap.now.programs.items) }
    ensures { IfOk result (λ v. SnapText v.items (snapshot_of snap.now)) }
{
    let mut out = Vec::with_capacity(alloc, length_of(snap))?;
    put_bytes(&mut out, b"ASYNCS01")?;
    put_u64(&mut out, snap.events)?;
    put_u32(&mut out, snap.programs.len() as u32)?;
    for program in &snap.programs {
        put_record(&mut out, program)?;
    }
    Ok(out)
}

// About as many bytes as there will be; less where they pass what a usize counts.
fn length_of(snap: &Snapshot) -> usize {
    let mut length: usize = 20;
    for program in &snap.programs {
        length = length.saturating_add(record_length(program));
    }
    length
}

fn record_length(program: &ProgramRecord) -> usize {
    match program {
        ProgramRecord::Paused { parts, memory, .. } => {
            let globals = parts.globals.len().saturating_mul(9);
            globals.saturating_add(memory.len()).saturating_add(37)
        }
        _ => 1,
    }
}

fn put_record(out: &mut Vec<u8>, program: &ProgramRecord) -> Result<(), AllocError>
    requires { CountsFit (record_of program.now) }
    ensures puts { OnOk result (out.new.items ≡ out.old.items ++ record_bytes (record_of program.now)) }
    ensures fits { OnOk result (RecordFits (record_of program.now)) }
{
    match program {
        ProgramRecord::Fresh => put_byte(out, 0),
        ProgramRecord::Paused { due, parts, memory } => {
            put_byte(out, 1)?;
            put_u64(out, *due)?;
            put_parts(out, parts, memory.as_slice())
        }
        ProgramRecord::Over => put_byte(out, 2),
    }
}

fn put_parts(out: &mut Vec<u8>, parts: &PausedParts, memory: &[u8]) -> Result<(), AllocError>
    requires few { length parts.now.globals.items < 2 ^ 32 }
    requires whole { length memory.now ≡ parts.now.pages * page_size }
    ensures puts { OnOk result (out.new.items ≡ out.old.items ++ parts_bytes (parts_of parts.now) memory.now) }
    ensures fits { OnOk result (PartsFit (parts_of parts.now) memory.now) }
{
    put_u64(out, parts.steps_used)?;
    put_u32(out, parts.entry)?;
    put_u32(out, parts.answers)?;
    put_u32(out, parts.import)?;
    put_globals(out, parts.globals.as_slice())?;
    put_u32(out, parts.pages)?;
    put_bytes(out, memory)
}

fn put_globals(out: &mut Vec<u8>, globals: &[Value]) -> Result<(), AllocError>
    requires { length globals.now < 2 ^ 32 }
    ensures puts { OnOk result (out.new.items ≡ out.old.items ++ (bytes_of 4 (length globals.now) ++ flat_map global_bytes globals.now)) }
    ensures fits { OnOk result (All value_fits globals.now) }
{
    put_u32(out, globals.len() as u32)?;
    for value in globals {
        put_global(out, *value)?;
    }
    Ok(())
}

fn put_global(out: &mut Vec<u8>, value: Value) -> Result<(), AllocError>
    ensures puts { OnOk result (out.new.items ≡ out.old.items ++ global_bytes value) }
    ensures fits { OnOk result (value_fits value) }
{
    match value {
        Value::I32(n) => {
            put_byte(out, 0x7F)?;
            put_u32(out, n)
        }
        Value::I64(n) => {
            put_byte(out, 0x7E)?;
            put_u64(out, n)
        }
    }
}

fn put_byte(out: &mut Vec<u8>, byte: u8) -> Result<(), AllocError>
    ensures { OnOk result (out.new.items ≡ out.old.items ++ byte ∷ []) }
{
    out.push(byte)?;
    Ok(())
}

fn put_bytes(out: &mut Vec<u8>, bytes: &[u8]) -> Result<(), AllocError>
    ensures puts { OnOk result (out.new.items ≡ out.old.items ++ bytes.now) }
    ensures fits { All (λ b. b < 2 ^ 8) bytes.now }
{
    out.extend_from_slice(bytes)
}

fn put_u32(out: &mut Vec<u8>, n: u32) -> Result<(), AllocError>
    ensures puts { OnOk result (out.new.items ≡ out.old.items ++ bytes_of 4 n) }
    ensures fits { n < 2 ^ 32 }
{
    put_bytes(out, &n.to_le_bytes())
}

fn put_u64(out: &mut Vec<u8>, n: u64) -> Result<(), AllocError>
    ensures puts { OnOk result (out.new.items ≡ out.old.items ++ bytes_of 8 n) }
    ensures fits { n < 2 ^ 64 }
{
    put_bytes(out, &n.to_le_bytes())
}
