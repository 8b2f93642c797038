//! A function's declared locals as bytes, adjacent runs of one type merged (standard, section 5.5.13).

ghost use Rattle.std.specs.Prelude.{◌≡◌, ◌+◌, ◌<◌, ◌≤◌, ◌^◌, ◌++◌, [], ◌∷◌, ℕ, List, length, drop, sum_by, OnOk, IfSome, MatchOption};
ghost use Rattle.wa_types.specs.Encoding.{vector, merged, run_bytes};
ghost use Rattle.wa_types.specs.declared.syntax.Run.{Run};
ghost use Rattle.wasm_encode.specs.Locals.{local_count, in_front_of, StandApart, Joins};

use crate::numbers::{put_unsigned, unsigned_len};
use crate::types::val_type_byte;
use bytes::BytesMut;
use std::alloc::AllocError;
use wa_types::{Run, ValType};

/// The two runs as one where they are of one type or one of them is empty.
fn joined(run: Run, next: Run) -> Option<Run>
    requires { run.count + next.count < 2 ^ 32 }
    ensures { MatchOption result (StandApart run next) (Joins run next) }
{
    if run.count == 0 {
        Some(next)
    } else if next.count == 0 {
        Some(run)
    } else if run.ty == next.ty {
        Some(Run {
            count: run.count + next.count,
            ty: run.ty,
        })
    } else {
        None
    }
}

/// The next of the merged runs at this place, and the place behind what it is merged from.
fn next_run(runs: &[Run], at: &mut usize) -> Option<Run>
    requires place { at.old ≤ length runs.now }
    requires few { local_count runs.now < 2 ^ 32 }
    ensures place { at.new ≤ length runs.now }
    ensures moves { IfSome result (λ _. at.old < at.new) }
    ensures next { MatchOption result (merged (drop at.old runs.now) ≡ [])
        (λ run. merged (drop at.old runs.now) ≡ run ∷ merged (drop at.new runs.now)) }
{
    let mut run = Run {
        count: 0,
        ty: ValType::I32,
    };
    while *at < runs.len() {
        match joined(run, runs[*at]) {
            Some(longer) => run = longer,
            None => return Some(run),
        }
        *at += 1;
    }
    if run.count == 0 { None } else { Some(run) }
}

/// How many runs a function's locals are written in.
fn merged_count(runs: &[Run]) -> u64
    requires { local_count runs.now < 2 ^ 32 }
    ensures { result ≡ length (merged runs.now) }
{
    let mut at = 0;
    let mut count = 0;
    while let Some(_run) = next_run(runs, &mut at) {
        count += 1;
    }
    count
}

/// How many bytes a function's locals take (standard, section 5.5.13).
pub fn locals_len(runs: &[Run]) -> u64
    requires few { local_count runs.now < 2 ^ 32 }
    requires fits { length (vector run_bytes (merged runs.now)) < 2 ^ 64 }
    ensures { result ≡ length (vector run_bytes (merged runs.now)) }
{
    let mut len = unsigned_len(merged_count(runs));
    let mut at = 0;
    while let Some(run) = next_run(runs, &mut at) {
        len += unsigned_len(run.count as u64) + 1;
    }
    len
}

/// Appends a function's locals (standard, section 5.5.13): adjacent runs of one type are merged, and empty
/// ones left out.
pub fn put_locals(out: &mut BytesMut, runs: &[Run]) -> Result<(), AllocError>
    requires { local_count runs.now < 2 ^ 32 }
    ensures { OnOk result (out.new.items ≡ out.old.items ++ vector run_bytes (merged runs.now)) }
{
    put_unsigned(out, merged_count(runs))?;
    let mut at = 0;
    while let Some(run) = next_run(runs, &mut at) {
        put_unsigned(out, run.count as u64)?;
        out.extend_from_slice(&[val_type_byte(run.ty)])?;
    }
    Ok(())
}
