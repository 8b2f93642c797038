//! Records of programs between two events.

ghost use Rattle.std.specs.Prelude.{◌≡◌, ◌∷◌, [], ◌++◌, All, IfOk, OnOk, length, map, take, unwrap_or};
ghost use Rattle.std.specs.Option.{option_copied};
ghost use Rattle.snapshot_store.specs.Snapshots.{paused};
ghost use Rattle.snapshot_store.specs.Views.{parts_of, record_of};
ghost use Rattle.many_host.specs.Saving.{HasItsPages, record_for, records_for};

use crate::hosted::Hosted;
use snapshot_store::{PausedParts, ProgramRecord};
use std::alloc::{AllocError, Global};

/// A record of each program, by when it is due.
pub(crate) fn saved_records(
    alloc: Global,
    programs: &[Hosted<'_>],
    dues: &[Option<u64>],
) -> Result<Vec<ProgramRecord>, AllocError>
    requires { length dues.now ≡ length programs.now }
    ensures is { IfOk result (λ records. map record_of records.items ≡ records_for dues.now programs.now) }
    ensures pages { IfOk result (λ records. All HasItsPages (map record_of records.items)) }
{
    let mut records = Vec::new(alloc);
    for i in 0..programs.len() {
        let next = saved_record(alloc, &programs[i], dues[i])?;
        put_record(&mut records, next)?;
    }
    Ok(records)
}

fn put_record(records: &mut Vec<ProgramRecord>, next: ProgramRecord) -> Result<(), AllocError>
    ensures { OnOk result (map record_of records.new.items ≡ map record_of records.old.items ++ record_of next ∷ []) }
{
    records.push(next)?;
    Ok(())
}

// The record of a program: it has ended, waits at a pause, or hasn't begun.
fn saved_record(
    alloc: Global,
    hosted: &Hosted<'_>,
    due: Option<u64>,
) -> Result<ProgramRecord, AllocError>
    ensures is { IfOk result (λ r. record_of r ≡ record_for due hosted.now) }
    ensures pages { IfOk result (λ r. HasItsPages (record_of r)) }
{
    let Some(due) = due else {
        return Ok(ProgramRecord::Over);
    };
    match hosted.program.parts(alloc)? {
        None => return Ok(ProgramRecord::Fresh),
        Some(parts) => {
            let memory = bytes_in(hosted.program.memory());
            return paused_record(alloc, due, parts, memory);
        }
    }
}

// The bytes; none where there are none.
fn bytes_in(memory: Option<&[u8]>) -> &[u8]
    ensures { result.now ≡ unwrap_or (option_copied memory.entry) [] }
{
    match memory {
        None => &[],
        Some(bytes) => bytes,
    }
}

// A paused program, with a copy of its memory.
fn paused_record(
    alloc: Global,
    due: u64,
    parts: PausedParts,
    memory: &[u8],
) -> Result<ProgramRecord, AllocError>
    ensures { IfOk result (λ r. record_of r ≡ paused due (parts_of parts) memory.now) }
{
    let memory = Vec::from_slice(alloc, memory)?;
    Ok(ProgramRecord::Paused { due, parts, memory })
}
