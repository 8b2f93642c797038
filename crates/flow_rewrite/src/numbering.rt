//! The places of the calls that get a number.

ghost use Rattle.std.specs.Prelude.{◌≡◌, ◌+◌, ◌++◌, ◌<◌, ◌^◌, ◌∷◌, [], IfOk, OnOk, if◌then◌else◌, slice_get};
ghost use Rattle.wa_types.specs.Pausing.{is_told, places_from};
ghost use Rattle.wa_types.specs.Syntax.{done};
ghost use Rattle.wa_types.specs.View.{in_front};
ghost use Rattle.run_theory.specs.FlatView.{flat_func_of, stmts, stmt_in_front};
ghost use Rattle.run_theory.specs.Flat.{no_more};
ghost use Rattle.guard_form.specs.Pieces.{call_total, sole_callee};
ghost use Rattle.flow_rewrite.specs.Numbering.{callees, gets_number};

use std::alloc::{AllocError, Global};
use wa_model::{FlatFunc, Stmt};
use wa_types::Instr;

/// Whether this index is told.
fn is_told(tells: &[bool], index: u32) -> bool
    ensures { result ≡ is_told (slice_get tells.now index) }
{
    match tells.get(index as usize) {
        Some(told) => *told,
        None => false,
    }
}

/// Whether a call gets a number.
fn gets_number(op: &Instr, which: &[bool], listed: &[bool], ignore_indirect: bool) -> bool
    ensures { result ≡ gets_number which.now listed.now ignore_indirect (sole_callee (in_front op.now done)) }
{
    match op {
        Instr::Call(func) => is_told(listed, *func) || is_told(which, *func),
        Instr::CallIndirect(_) => !ignore_indirect,
        _ => false,
    }
}

/// Puts a place, where told.
fn put_place(out: &mut Vec<u32>, place: u32, told: bool) -> Result<(), AllocError>
    ensures { OnOk result (out.new.items ≡ out.old.items ++ (if told then place ∷ [] else [])) }
{
    if told {
        out.push(place)?;
    }
    Ok(())
}

/// Puts the places of the numbered calls, and gives the place behind them all.
#[cycle(number)]
fn put_numbers(
    out: &mut Vec<u32>,
    body: &[Stmt],
    place: u32,
    which: &[bool],
    listed: &[bool],
    ignore_indirect: bool,
) -> Result<u32, AllocError>
    requires { place + call_total (stmts body.now) < 2 ^ 32 }
    ensures place { IfOk result (λ n. n ≡ place + call_total (stmts body.now)) }
    ensures items { OnOk result (out.new.items ≡ out.old.items ++ places_from (gets_number which.now listed.now ignore_indirect) place (callees (stmts body.now))) }
{
    let mut next = place;
    for stmt in body {
        next = put_stmt_numbers(out, stmt, next, which, listed, ignore_indirect)?;
    }
    Ok(next)
}

/// Puts the places of a statement's numbered calls, and gives the place behind them.
#[cycle(number)]
fn put_stmt_numbers(
    out: &mut Vec<u32>,
    stmt: &Stmt,
    place: u32,
    which: &[bool],
    listed: &[bool],
    ignore_indirect: bool,
) -> Result<u32, AllocError>
    requires { place + call_total (stmt_in_front stmt.now no_more) < 2 ^ 32 }
    ensures place { IfOk result (λ n. n ≡ place + call_total (stmt_in_front stmt.now no_more)) }
    ensures items { OnOk result (out.new.items ≡ out.old.items ++ places_from (gets_number which.now listed.now ignore_indirect) place (callees (stmt_in_front stmt.now no_more))) }
{
    match stmt {
        Stmt::Call { op, .. } => {
            put_place(out, place, gets_number(op, which, listed, ignore_indirect))?;
            Ok(place + 1)
        }
        Stmt::Block(body) => {
            let next = put_numbers(out, body, place, which, listed, ignore_indirect)?;
            Ok(next)
        }
        Stmt::Loop(body) => {
            let next = put_numbers(out, body, place, which, listed, ignore_indirect)?;
            Ok(next)
        }
        Stmt::If {
            then_arm,
            else_arm,
            ..
        } => {
            let middle = put_numbers(out, then_arm, place, which, listed, ignore_indirect)?;
            let next = put_numbers(out, else_arm, middle, which, listed, ignore_indirect)?;
            Ok(next)
        }
        _ => Ok(place),
    }
}

/// The places of the numbered calls of a flat function among its calls, in order of code: of those that go to a listed
/// import or to a function that may pause, and of each `call_indirect` that isn't ignored. There are fewer than 2^32 calls.
pub fn number_calls(
    alloc: Global,
    func: &FlatFunc,
    which: &[bool],
    listed: &[bool],
    ignore_indirect: bool,
) -> Result<Vec<u32>, AllocError>
    requires { call_total (flat_func_of func.now).body < 2 ^ 32 }
    ensures { IfOk result (λ v. v.items ≡ places_from (gets_number which.now listed.now ignore_indirect) 0 (callees (flat_func_of func.now).body)) }
{
    let mut numbers = Vec::new(alloc);
    let _count = put_numbers(&mut numbers, &func.body, 0, which, listed, ignore_indirect)?;
    Ok(numbers)
}
