//! What is guessed.

use std::alloc::{AllocError, Global};
use wa_model::{FlatFunc, Operand, Stmt};
use wa_types::ValType;

/// Whether an operand is this local.
fn is_local(operand: Operand, x: u32) -> bool {
    match operand {
        Operand::Local(y) => y == x,
        Operand::Const(_) => false,
    }
}

/// The type of a local, if it is there.
fn is_type(types: &[ValType], x: u32, ty: ValType) -> bool {
    match types.get(x as usize) {
        Some(there) => *there == ty,
        None => false,
    }
}

/// Whether a local is an i32 and the next one an i64.
fn is_pair(types: &[ValType], x: u32) -> bool {
    is_type(types, x, ValType::I32) && is_type(types, x.saturating_add(1), ValType::I64)
}

/// Notes that two slots stand at two heights, where one is the next of the other.
fn mark_pair(apart: &mut Vec<bool>, low: u32, x: u32, next: u32) {
    if x < low || next <= x {
        return;
    }
    if next - x != 1 {
        return;
    }
    if let Some(mark) = apart.get_mut((x - low) as usize) {
        *mark = true;
    }
}

/// Notes this of operands that stand one above the other.
fn mark_slots(apart: &mut Vec<bool>, low: u32, slots: &[u32]) {
    let mut below = u32::MAX;
    for slot in slots {
        mark_pair(apart, low, below, *slot);
        below = *slot;
    }
}

/// The local of an operand, or none that there is.
fn local_of(operand: Operand) -> u32 {
    match operand {
        Operand::Local(x) => x,
        Operand::Const(_) => u32::MAX,
    }
}

/// Notes this of a plain statement's operands.
fn mark_operands(apart: &mut Vec<bool>, low: u32, args: &[Operand]) {
    let mut below = u32::MAX;
    for arg in args {
        mark_pair(apart, low, below, local_of(*arg));
        below = local_of(*arg);
    }
}

/// Notes this of all statements.
fn mark_stmts(apart: &mut Vec<bool>, low: u32, body: &[Stmt]) {
    for stmt in body {
        match stmt {
            Stmt::Plain { args, .. } => mark_operands(apart, low, args),
            Stmt::Call { stack, .. } => mark_slots(apart, low, stack),
            Stmt::Block(inner) => mark_stmts(apart, low, inner),
            Stmt::Loop(inner) => mark_stmts(apart, low, inner),
            Stmt::If {
                then_arm,
                else_arm,
                ..
            } => {
                mark_stmts(apart, low, then_arm);
                mark_stmts(apart, low, else_arm);
            }
            _ => {}
        }
    }
}

/// By slot, whether the next one stands at another height. Slots stand in the order of their heights, and at one height that of
/// an i32 first: so only an i64's behind an i32's may stand at the same one, and doesn't where both are operands at once.
pub fn heights_apart(
    alloc: Global,
    func: &FlatFunc,
    low: u32,
    slots: usize,
) -> Result<Vec<bool>, AllocError> {
    let mut apart = Vec::with_capacity(alloc, slots)?;
    let mut slot = low;
    for _ in 0..slots {
        apart.push(!is_pair(&func.locals, slot))?;
        slot = slot.saturating_add(1);
    }
    mark_stmts(&mut apart, low, &func.body);
    Ok(apart)
}

/// Whether an operand stays below one that goes to this slot.
fn stays_below(apart: &[bool], low: u32, x: u32, to: Option<u32>) -> bool {
    let Some(to) = to else {
        return false;
    };
    if to <= x || x < low {
        return false;
    }
    if to - x != 1 {
        return true;
    }
    apart.get((x - low) as usize).copied() == Some(true)
}

/// Whether a statement takes this operand, or leaves it where it is.
fn leaves(apart: &[bool], low: u32, x: u32, next: &Stmt) -> bool {
    match next {
        Stmt::Plain { args, to, .. } => match args.last().copied() {
            Some(arg) => is_local(arg, x),
            None => stays_below(apart, low, x, *to),
        },
        Stmt::Move { to, from } => is_local(*from, x) || stays_below(apart, low, x, Some(*to)),
        Stmt::Call { stack, .. } => stack.last().copied() == Some(x),
        Stmt::BrIf { cond, .. } => is_local(*cond, x),
        Stmt::BrTable { index, .. } => is_local(*index, x),
        Stmt::If { cond, .. } => is_local(*cond, x),
        Stmt::Block(body) | Stmt::Loop(body) => match body.first() {
            Some(first) => leaves(apart, low, x, first),
            None => false,
        },
        _ => false,
    }
}

/// Whether a statement moves an operand that is read again, where this one stands behind it, and these slots stand on the stack, the
/// first slot being `low`.
#[inline(never)]
pub fn reads_again(
    stack: &[u32],
    low: u32,
    apart: &[bool],
    stmt: &Stmt,
    next: Option<&Stmt>,
) -> bool {
    let Stmt::Move { from, .. } = stmt else {
        return false;
    };
    let Operand::Local(x) = *from else {
        return false;
    };
    if stack.last().copied() != Some(x) {
        return true;
    }
    match next {
        Some(next) => leaves(apart, low, x, next),
        None => false,
    }
}

/// This operand's slot, where it doesn't stand on the stack.
fn absent(stack: &[u32], low: u32, places: &[usize], operand: Operand) -> Option<u32> {
    let Operand::Local(x) = operand else {
        return None;
    };
    if x < low {
        return None;
    }
    let Some(place) = places.get((x - low) as usize) else {
        return None;
    };
    if stack.get(*place).copied() == Some(x) {
        return None;
    }
    Some(x)
}

/// The slot that the next statement reads and that doesn't stand on the stack, where the slots from `low` on have these places there.
#[inline(never)]
pub fn taken_behind(stack: &[u32], low: u32, places: &[usize], next: Option<&Stmt>) -> Option<u32> {
    match next {
        Some(Stmt::Move { from, .. }) => absent(stack, low, places, *from),
        Some(Stmt::If { cond, .. }) => absent(stack, low, places, *cond),
        Some(Stmt::BrIf { cond, .. }) => absent(stack, low, places, *cond),
        Some(Stmt::Plain { args, .. }) => match args.last().copied() {
            Some(arg) => absent(stack, low, places, arg),
            None => None,
        },
        _ => None,
    }
}

/// The statement at this place, or the one behind all.
pub fn following<'a>(body: &'a [Stmt], place: usize, after: Option<&'a Stmt>) -> Option<&'a Stmt> {
    match body.get(place) {
        Some(next) => Some(next),
        None => after,
    }
}
