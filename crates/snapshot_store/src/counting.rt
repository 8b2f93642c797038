//! How many bytes spell a snapshot.

ghost use Rattle.std.specs.Prelude.{◌≡◌, ◌*◌, ◌<◌, ◌≤◌, ◌^◌, ◌+◌, length, All, map};
ghost use Rattle.std.specs.List.{flat_map};
ghost use Rattle.snapshot_store.specs.Snapshots.{global_bytes, record_bytes, snapshot_bytes};
ghost use Rattle.snapshot_store.specs.Views.{record_of, snapshot_of};
ghost use Rattle.snapshot_store.specs.Parts.{CountsFit};

use crate::snapshot::{PausedParts, ProgramRecord, Snapshot};
use wa_types::Value;

const PAGE_SIZE: u64 = 65_536;

/// How many bytes `write` gives, of a snapshot of at most sixteen programs with fewer than 2^32 globals each; each memory has `pages`
/// times 65,536 bytes.
pub fn length(snap: &Snapshot) -> u64
    requires few { length snap.now.programs.items ≤ 16 }
    requires each { All CountsFit (map record_of snap.now.programs.items) }
    ensures { result ≡ length (snapshot_bytes (snapshot_of snap.now)) }
{
    let mut total: u64 = 20;
    for program in &snap.programs {
        total += record_length(program);
    }
    total
}

fn record_length(program: &ProgramRecord) -> u64
    requires { CountsFit (record_of program.now) }
    ensures is { result ≡ length (record_bytes (record_of program.now)) }
    ensures bound { result ≤ 2 ^ 50 }
{
    match program {
        ProgramRecord::Paused { parts, .. } => paused_length(parts),
        _ => 1,
    }
}

// The length of a paused program's record.
fn paused_length(parts: &PausedParts) -> u64
    requires { length parts.now.globals.items < 2 ^ 32 }
    ensures is { result ≡ 37 + length (flat_map global_bytes parts.now.globals.items) + parts.now.pages * 65536 }
    ensures bound { result ≤ 2 ^ 50 }
{
    37 + globals_length(&parts.globals) + pages_length(parts.pages)
}

fn pages_length(pages: u32) -> u64
    ensures is { result ≡ pages * 65536 }
    ensures bound { result ≤ 2 ^ 48 }
{
    u64::from(pages) * PAGE_SIZE
}

fn globals_length(globals: &[Value]) -> u64
    requires { length globals.now < 2 ^ 32 }
    ensures is { result ≡ length (flat_map global_bytes globals.now) }
    ensures bound { result ≤ 9 * length globals.now }
{
    let mut total: u64 = 0;
    for value in globals {
        total += global_length(*value);
    }
    total
}

fn global_length(value: Value) -> u64
    ensures is { result ≡ length (global_bytes value) }
    ensures bound { result ≤ 9 }
{
    match value {
        Value::I32(_) => 5,
        Value::I64(_) => 9,
    }
}
