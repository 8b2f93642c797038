//! Which locals the frames of a function keep: its own, and the slots on the stack of some numbered call.

ghost use Rattle.std.specs.Prelude.{◌≡◌, ◌<◌, ◌≤◌, ◌+◌, ◌^◌, ◌||◌, ◌&&◌, ℕ, All, length, get_or, false, nat_eq, nat_lt, IfOk};
ghost use Rattle.std.specs.List.{list_any};
ghost use Rattle.run_theory.specs.Flat.{no_more};
ghost use Rattle.run_theory.specs.FlatView.{flat_func_of, stmts, stmt_in_front};
ghost use Rattle.guard_form.specs.Grouping.{is_place};
ghost use Rattle.guard_form.specs.Pieces.{call_total};
ghost use Rattle.flow_rewrite.specs.Emitting.{Rises};
ghost use Rattle.emitted_form.specs.Emitted.{holds_operand};
ghost use Rattle.func_rewrite.specs.Marking.{Markable, Marked, StacksFit};

use std::alloc::{AllocError, Global};
use wa_model::{FlatFunc, Stmt};

/// Whether the call at this place is numbered.
fn is_numbered(numbers: &[u32], place: u32) -> bool
    requires { Rises numbers.now }
    ensures { result ≡ is_place numbers.now place }
{
    numbers.binary_search(&place).is_ok()
}

/// Marks these locals.
fn mark_stack(kept: &mut [bool], stack: &[u32])
    requires { All (λ x. x < length kept.old) stack.now }
    ensures { (x : ℕ) → get_or kept.new x false ≡ (get_or kept.old x false || list_any (nat_eq x) stack.now) }
{
    for slot in stack {
        kept[*slot as usize] = true;
    }
}

/// Marks the stack of the call at this place, where it is numbered.
fn mark_call(kept: &mut [bool], numbers: &[u32], stack: &[u32], place: u32)
    requires rises { Rises numbers.now }
    requires fits { All (λ x. x < length kept.old) stack.now }
    ensures { (x : ℕ) → get_or kept.new x false ≡ (get_or kept.old x false || (is_place numbers.now place && list_any (nat_eq x) stack.now)) }
{
    if is_numbered(numbers, place) {
        mark_stack(kept, stack);
    }
}

/// Marks the stacks of the numbered calls of statements, the first call of which has this place, and gives the place
/// behind them.
#[cycle(mark)]
fn mark_body(kept: &mut [bool], numbers: &[u32], body: &[Stmt], place: u32) -> u32
    requires { Markable numbers.now (length kept.old) place (stmts body.now) }
    ensures place { result ≡ place + call_total (stmts body.now) }
    ensures marked { Marked numbers.now place (stmts body.now) kept.old kept.new }
{
    let mut next = place;
    for stmt in body {
        next = mark_stmt(kept, numbers, stmt, next);
    }
    next
}

/// Marks the stacks of a statement's numbered calls, and gives the place behind them.
#[cycle(mark)]
fn mark_stmt(kept: &mut [bool], numbers: &[u32], stmt: &Stmt, place: u32) -> u32
    requires { Markable numbers.now (length kept.old) place (stmt_in_front stmt.now no_more) }
    ensures place { result ≡ place + call_total (stmt_in_front stmt.now no_more) }
    ensures marked { Marked numbers.now place (stmt_in_front stmt.now no_more) kept.old kept.new }
{
    match stmt {
        Stmt::Call { stack, .. } => {
            mark_call(kept, numbers, stack, place);
            place + 1
        }
        Stmt::Block(body) => mark_body(kept, numbers, body, place),
        Stmt::Loop(body) => mark_body(kept, numbers, body, place),
        Stmt::If {
            then_arm,
            else_arm,
            ..
        } => {
            let middle = mark_body(kept, numbers, then_arm, place);
            mark_body(kept, numbers, else_arm, middle)
        }
        _ => place,
    }
}

/// Which locals the frames of a flat function keep: its own, of which there are so many, and the slots that hold an operand
/// at one of the numbered calls, which have these places.
pub fn kept_locals(
    alloc: Global,
    flat: &FlatFunc,
    numbers: &[u32],
    own: u32,
) -> Result<Vec<bool>, AllocError>
    requires rises { Rises numbers.now }
    requires fits { StacksFit (length flat.now.locals.items) (flat_func_of flat.now).body }
    requires few { call_total (flat_func_of flat.now).body < 2 ^ 32 }
    requires own { own ≤ length flat.now.locals.items }
    ensures size { IfOk result (λ v. length v.items ≡ length flat.now.locals.items) }
    ensures kept { IfOk result (λ v. (x : ℕ) → get_or v.items x false ≡ (nat_lt x own || holds_operand (flat_func_of flat.now) numbers.now x)) }
{
    let mut kept = Vec::with_capacity(alloc, flat.locals.len())?;
    for local in 0..flat.locals.len() {
        kept.push(local < own as usize)?;
    }
    let _count = mark_body(&mut kept, numbers, &flat.body, 0);
    Ok(kept)
}
