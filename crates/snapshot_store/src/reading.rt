//! Snapshots from bytes.

ghost use Rattle.std.specs.Prelude.{◌≡◌, ℕ, ◌+◌, ◌*◌, ◌<◌, ◌≤◌, ◌^◌, List, [], ◌∷◌, ◌++◌, All, Err, IfOk, IfSome, IfNone, OnOk, codes, length, drop, map};
ghost use Rattle.std.specs.List.{flat_map};
ghost use Rattle.wa_types.specs.Memory.{bytes_of, page_size};
ghost use Rattle.wa_types.specs.Sizes.{value_fits};
ghost use Rattle.snapshot_store.specs.Snapshots.{RecordFits, Snapshot as PlainSnapshot, SnapText, global_bytes, record_bytes};
ghost use Rattle.snapshot_store.specs.Views.{record_of, snapshot_of};
ghost use Rattle.snapshot_store.specs.Parts.{AreGlobals, AreRecords, Fronts, HasNone};
ghost use Rattle.snapshot_store.specs.declared.fault.SnapFault.TheVariants.{Refused};

use crate::fault::SnapFault;
use crate::numbers::{head_at, u32_at, u64_at};
use crate::snapshot::{PausedParts, ProgramRecord, Snapshot};
use std::alloc::{AllocError, Global};
use wa_types::Value;

const PAGE_SIZE: u64 = 65_536;

/// The snapshot that the bytes spell; Refused exactly where they spell none. A memory takes as many bytes as it has here; a global, and a
/// program that isn't paused, take more than their bytes: at most some hundred for one.
pub fn read(alloc: Global, bytes: &[u8]) -> Result<Snapshot, SnapFault>
    ensures ok { IfOk result (λ s. SnapText bytes.now (snapshot_of s)) }
    ensures refused { result ≡ Err Refused → (s : PlainSnapshot) → SnapText bytes.now s → ⊥ }
{
    let mut at = 0;
    let Some(events) = events_at(bytes, &mut at) else {
        return Err(SnapFault::Refused);
    };
    let Some(count) = u32_at(bytes, &mut at) else {
        return Err(SnapFault::Refused);
    };
    let programs = match records_at(alloc, bytes, &mut at, count) {
        Ok(programs) => programs,
        Err(fault) => return Err(fault),
    };
    if at < bytes.len() {
        return Err(SnapFault::Refused);
    }
    Ok(Snapshot { events, programs })
}

// The number of events, behind what every snapshot begins with.
fn events_at(bytes: &[u8], at: &mut usize) -> Option<u64>
    requires { at.old ≡ 0 }
    ensures is { IfSome result (λ n. bytes.now ≡ codes "ASYNCS01" ++ (bytes_of 8 n ++ drop at.new bytes.now)) }
    ensures fits { IfSome result (λ n. n < 2 ^ 64) }
    ensures place { at.new ≤ length bytes.now }
    ensures none { IfNone result ((n : ℕ) (rest : List ℕ) → bytes.now ≡ codes "ASYNCS01" ++ (bytes_of 8 n ++ rest) → ⊥) }
{
    if !bytes.starts_with(b"ASYNCS01") {
        return None;
    }
    *at = 8;
    u64_at(bytes, at)
}

// So many records.
fn records_at(
    alloc: Global,
    bytes: &[u8],
    at: &mut usize,
    count: u32,
) -> Result<Vec<ProgramRecord>, SnapFault>
    requires { at.old ≤ length bytes.now }
    ensures ok { IfOk result (λ rs. Fronts (AreRecords count) (flat_map record_bytes) (drop at.old bytes.now) (map record_of rs.items) (drop at.new bytes.now)) }
    ensures place { at.new ≤ length bytes.now }
    ensures refused { result ≡ Err Refused → HasNone (AreRecords count) (flat_map record_bytes) (drop at.old bytes.now) }
{
    let mut records = Vec::new(alloc);
    'records: while records.len() < count as usize {
        let next = match record_at(alloc, bytes, at) {
            Ok(next) => next,
            Err(fault) => return Err(fault),
        };
        put_record(&mut records, next)?;
    }
    Ok(records)
}

fn put_record(records: &mut Vec<ProgramRecord>, next: ProgramRecord) -> Result<(), AllocError>
    ensures { OnOk result (map record_of records.new.items ≡ map record_of records.old.items ++ record_of next ∷ []) }
{
    records.push(next)?;
    Ok(())
}

// One record.
fn record_at(alloc: Global, bytes: &[u8], at: &mut usize) -> Result<ProgramRecord, SnapFault>
    requires { at.old ≤ length bytes.now }
    ensures ok { IfOk result (λ r. Fronts RecordFits record_bytes (drop at.old bytes.now) (record_of r) (drop at.new bytes.now)) }
    ensures place { at.new ≤ length bytes.now }
    ensures refused { result ≡ Err Refused → HasNone RecordFits record_bytes (drop at.old bytes.now) }
{
    if *at >= bytes.len() {
        return Err(SnapFault::Refused);
    }
    let kind = bytes[*at];
    *at += 1;
    match kind {
        0 => Ok(ProgramRecord::Fresh),
        1 => paused_at(alloc, bytes, at),
        2 => Ok(ProgramRecord::Over),
        _ => Err(SnapFault::Refused),
    }
}

// A paused program, behind the byte that tells it.
fn paused_at(alloc: Global, bytes: &[u8], at: &mut usize) -> Result<ProgramRecord, SnapFault>
    requires { at.old ≤ length bytes.now }
    ensures ok { IfOk result (λ r. Fronts RecordFits record_bytes (1 ∷ drop at.old bytes.now) (record_of r) (drop at.new bytes.now)) }
    ensures place { at.new ≤ length bytes.now }
    ensures refused { result ≡ Err Refused → HasNone RecordFits record_bytes (1 ∷ drop at.old bytes.now) }
{
    let Some(head) = head_at(bytes, at) else {
        return Err(SnapFault::Refused);
    };
    let globals = match globals_at(alloc, bytes, at, head.globals) {
        Ok(globals) => globals,
        Err(fault) => return Err(fault),
    };
    let Some(pages) = u32_at(bytes, at) else {
        return Err(SnapFault::Refused);
    };
    let memory = match memory_at(alloc, bytes, at, pages) {
        Ok(memory) => memory,
        Err(fault) => return Err(fault),
    };
    let parts = PausedParts {
        steps_used: head.steps_used,
        entry: head.entry,
        answers: head.answers,
        import: head.import,
        globals,
        pages,
    };
    let due = head.due;
    Ok(ProgramRecord::Paused { due, parts, memory })
}

// So many globals.
fn globals_at(
    alloc: Global,
    bytes: &[u8],
    at: &mut usize,
    count: u32,
) -> Result<Vec<Value>, SnapFault>
    requires { at.old ≤ length bytes.now }
    ensures ok { IfOk result (λ gs. Fronts (AreGlobals count) (flat_map global_bytes) (drop at.old bytes.now) gs.items (drop at.new bytes.now)) }
    ensures place { at.new ≤ length bytes.now }
    ensures refused { result ≡ Err Refused → HasNone (AreGlobals count) (flat_map global_bytes) (drop at.old bytes.now) }
{
    let mut globals = Vec::new(alloc);
    'globals: while globals.len() < count as usize {
        let Some(value) = global_at(bytes, at) else {
            return Err(SnapFault::Refused);
        };
        put_global(&mut globals, value)?;
    }
    Ok(globals)
}

fn put_global(globals: &mut Vec<Value>, value: Value) -> Result<(), AllocError>
    ensures { OnOk result (globals.new.items ≡ globals.old.items ++ value ∷ []) }
{
    globals.push(value)?;
    Ok(())
}

// One global.
fn global_at(bytes: &[u8], at: &mut usize) -> Option<Value>
    requires { at.old ≤ length bytes.now }
    ensures some { IfSome result (λ v. Fronts value_fits global_bytes (drop at.old bytes.now) v (drop at.new bytes.now)) }
    ensures place { at.new ≤ length bytes.now }
    ensures none { IfNone result (HasNone value_fits global_bytes (drop at.old bytes.now)) }
{
    if *at >= bytes.len() {
        return None;
    }
    let kind = bytes[*at];
    *at += 1;
    match kind {
        0x7F => match u32_at(bytes, at) {
            Some(n) => Some(Value::I32(n)),
            None => None,
        },
        0x7E => match u64_at(bytes, at) {
            Some(n) => Some(Value::I64(n)),
            None => None,
        },
        _ => None,
    }
}

// So many pages.
fn memory_at(alloc: Global, bytes: &[u8], at: &mut usize, pages: u32) -> Result<Vec<u8>, SnapFault>
    requires { at.old ≤ length bytes.now }
    ensures ok { IfOk result (λ m. drop at.old bytes.now ≡ m.items ++ drop at.new bytes.now) }
    ensures whole { IfOk result (λ m. length m.items ≡ pages * page_size) }
    ensures bytes { IfOk result (λ m. All (λ b. b < 2 ^ 8) m.items) }
    ensures place { at.new ≤ length bytes.now }
    ensures refused { result ≡ Err Refused → length bytes.now < at.old + pages * page_size }
{
    let size = u64::from(pages) * PAGE_SIZE;
    if ((bytes.len() - *at) as u64) < size {
        return Err(SnapFault::Refused);
    }
    let end = *at + size as usize;
    let memory = bytes[*at..end].to_vec(alloc)?;
    *at = end;
    Ok(memory)
}
