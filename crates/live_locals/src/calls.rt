//! The calls that keep each local of a function, and the sets of its numbered calls.

ghost use Rattle.std.specs.Prelude.{◌≡◌, ◌<◌, ◌+◌, ◌^◌, All, Vec, IfOk};
ghost use Rattle.run_theory.specs.Flat.{no_more};
ghost use Rattle.run_theory.specs.FlatView.{flat_func_of, stmt_in_front, stmts};
ghost use Rattle.run_theory.specs.FlatFits.{FlatFits};
ghost use Rattle.guard_form.specs.Pieces.{call_total};
ghost use Rattle.flow_rewrite.specs.Emitting.{Rises};
ghost use Rattle.live_locals.specs.LiveAt.{LiveAtCalls, LiveRows, lists_of};

use crate::keeping::{all_told, nothing_kept, settle_all};
use crate::nests::{Around, Walk};
use crate::rows::{CallsLeft, put_body_rows};
use crate::sets::{copied, none_of, read_told};
use call_frames::{Calls, sets_from};
use std::alloc::{AllocError, Global};
use wa_model::{FlatFunc, Stmt};

/// How many calls there are in a body, and so many before it.
#[cycle(count)]
fn count_calls(body: &[Stmt], before: u32) -> u32
    requires { before + call_total (stmts body.now) < 2 ^ 32 }
    ensures { result ≡ before + call_total (stmts body.now) }
{
    let mut count = before;
    for stmt in body {
        count = count_stmt_calls(stmt, count);
    }
    count
}

/// How many there are in a statement, and so many before it.
#[cycle(count)]
fn count_stmt_calls(stmt: &Stmt, before: u32) -> u32
    requires { before + call_total (stmt_in_front stmt.now no_more) < 2 ^ 32 }
    ensures { result ≡ before + call_total (stmt_in_front stmt.now no_more) }
{
    match stmt {
        Stmt::Call { .. } => before + 1,
        Stmt::Block(body) => count_calls(body, before),
        Stmt::Loop(body) => count_calls(body, before),
        Stmt::If {
            then_arm,
            else_arm,
            ..
        } => {
            let middle = count_calls(then_arm, before);
            count_calls(else_arm, middle)
        }
        _ => before,
    }
}

/// For each local of a flat function which of its numbered calls have to keep it in their frames, counted among these: it's an entry of the
/// call's stack, or some path from the call, its own result counting as written, reads it before it writes it. `numbers` holds the places
/// of the numbered calls among all calls; they rise. A statement is passed over a few times, and once more for each 63 loops around it and
/// each time that one of these is at most half of what it stands in; each branch and construct takes time linear in the number of locals,
/// and what stands between them in what it names.
pub fn live_rows(alloc: Global, func: &FlatFunc, numbers: &[u32]) -> Result<Vec<Calls>, AllocError>
    requires fits { FlatFits (flat_func_of func.now) }
    requires rises { Rises numbers.now }
    requires calls { All (λ n. n < call_total (flat_func_of func.now).body) numbers.now }
    requires few { call_total (flat_func_of func.now).body < 2 ^ 32 }
    ensures { IfOk result (λ rows. LiveRows (flat_func_of func.now) numbers.now rows.items) }
{
    let mut set = none_of(alloc, func.locals.len())?;
    read_told(&mut set, func.result);
    let mut tos = Vec::new(alloc);
    tos.push(copied(alloc, &set)?)?;
    let count = count_calls(&func.body, 0);
    let mut walk = Walk {
        alloc,
        tos,
        heads: Vec::new(alloc),
    };
    let calls = CallsLeft {
        numbers,
        last: count,
    };
    let around = Around {
        level: 63,
        reach: &[],
    };
    let mut keeping = nothing_kept(alloc, numbers.len() as u32, func.locals.len())?;
    put_body_rows(&mut walk, &mut keeping, calls, around, &mut set, &func.body)?;
    settle_all(&mut keeping, &set)?;
    all_told(alloc, keeping)
}

/// For each numbered call of a flat function which of its locals the call's frame has to keep: the entries of the call's
/// stack, and each other local that some path from the call, its own result counting as written, reads before it writes it.
/// `numbers` holds the places of the numbered calls among all calls; they rise. The sets are made from the rows of `live_rows`.
pub fn live_at(
    alloc: Global,
    func: &FlatFunc,
    numbers: &[u32],
) -> Result<Vec<Vec<bool>>, AllocError>
    requires fits { FlatFits (flat_func_of func.now) }
    requires rises { Rises numbers.now }
    requires calls { All (λ n. n < call_total (flat_func_of func.now).body) numbers.now }
    requires few { call_total (flat_func_of func.now).body < 2 ^ 32 }
    ensures { IfOk result (λ sets. LiveAtCalls (flat_func_of func.now) numbers.now (lists_of sets.items)) }
{
    let rows = live_rows(alloc, func, numbers)?;
    sets_from(alloc, &rows, numbers.len())
}
