//! What an activation reserves: the greatest height of its operands and depth of its labels, found in the code.

ghost use Rattle.std.specs.Prelude.{◌≡◌, ◌+◌, ◌<◌, ◌^◌, All, IfOk, length, map};
ghost use Rattle.wa_types.specs.Counts.{count_of};
ghost use Rattle.wa_types.specs.Modules.{func_sorts};
ghost use Rattle.wa_types.specs.Syntax.{done};
ghost use Rattle.wa_types.specs.View.{code, in_front, module_of};
ghost use Rattle.run_theory.specs.Heights.{behind, most_operands};
ghost use Rattle.interp_state.specs.Rooms.{room_at, HasFewInstrs};

use crate::types::{func_params, func_results, sort_params, sort_results};
use std::alloc::{AllocError, Global};
use wa_ops::operand_count;
use wa_types::{Func, Instr, Module, depth};

/// What an activation reserves: the greatest height of its operands, and the greatest depth of its labels.
#[derive(Clone, Copy)]
pub struct Room {
    pub operands: usize,
    pub labels: usize,
}

/// What the activations of each defined function reserve, of a module whose functions have types of these indices. Takes
/// time linear in the module, and goes no deeper than its bodies nest.
pub fn all_rooms(alloc: Global, source: &Module, sorts: &[u32]) -> Result<Vec<Room>, AllocError>
    requires sorts { sorts.now ≡ func_sorts (module_of source.now) }
    requires few { All HasFewInstrs source.now.funcs.items }
    ensures { IfOk result (λ v. v.items ≡ map (room_at (module_of source.now)) source.now.funcs.items) }
{
    let mut rooms = Vec::new(alloc);
    for func in &source.funcs {
        rooms.push(room_at(source, sorts, func))?;
    }
    Ok(rooms)
}

/// What the activations of a function reserve.
fn room_at(source: &Module, sorts: &[u32], func: &Func) -> Room
    requires sorts { sorts.now ≡ func_sorts (module_of source.now) }
    requires few { HasFewInstrs func.now }
    ensures { result ≡ room_at (module_of source.now) func.now }
{
    Room {
        operands: most_operands(source, sorts, &func.body, 0),
        labels: depth(&func.body) as usize,
    }
}

/// How high operands stand at most in code that begins with so many. What follows an instruction behind which control
/// never goes on isn't looked at.
#[cycle(most)]
#[tactic(auto, using(crate::proofs::RoomLemmas::walking))]
fn most_operands(source: &Module, sorts: &[u32], body: &[Instr], height: usize) -> usize
    requires sorts { sorts.now ≡ func_sorts (module_of source.now) }
    requires fits { height + count_of (code body.now) < 2 ^ 64 }
    ensures { result ≡ most_operands (module_of source.now) (code body.now) height }
{
    let mut here = height;
    let mut most = height;
    for instr in body {
        if instr.is_last() {
            return most;
        }
        most = most.max(most_inside(source, sorts, instr, here));
        here = behind(source, sorts, instr, here);
    }
    most
}

/// How high they stand at most in an instruction and behind it.
#[cycle(most)]
#[tactic(auto, using(crate::proofs::RoomLemmas::walking))]
fn most_inside(source: &Module, sorts: &[u32], instr: &Instr, height: usize) -> usize
    requires sorts { sorts.now ≡ func_sorts (module_of source.now) }
    requires fits { height + count_of (in_front instr.now done) < 2 ^ 64 }
    ensures { result ≡ most_operands (module_of source.now) (in_front instr.now done) height }
{
    let after = behind(source, sorts, instr, height);
    match instr {
        Instr::Block { result: _, body } => most_operands(source, sorts, body, height).max(after),
        Instr::Loop { result: _, body } => most_operands(source, sorts, body, height).max(after),
        Instr::If {
            result: _,
            then_arm,
            else_arm,
        } => {
            let below = height.saturating_sub(1);
            let first = most_operands(source, sorts, then_arm, below);
            let second = most_operands(source, sorts, else_arm, below);
            height.max(first.max(second).max(after))
        }
        _ => height.max(after),
    }
}

/// How high they stand behind an instruction, of so many before it. Where control never goes on behind it, no height
/// counts there.
#[tactic(auto, using(crate::proofs::RoomLemmas::passing))]
fn behind(source: &Module, sorts: &[u32], instr: &Instr, height: usize) -> usize
    requires sorts { sorts.now ≡ func_sorts (module_of source.now) }
    requires fits { height + 1 < 2 ^ 64 }
    ensures { result ≡ behind (module_of source.now) (in_front instr.now done) height }
{
    match instr {
        Instr::LocalGet(_) => height + 1,
        Instr::GlobalGet(_) => height + 1,
        Instr::Const(_) => height + 1,
        Instr::MemorySize => height + 1,
        Instr::Num(op) => height.saturating_sub(operand_count(*op)) + 1,
        Instr::Select => height.saturating_sub(3) + 1,
        Instr::Load { .. } => height.saturating_sub(1) + 1,
        Instr::MemoryGrow => height.saturating_sub(1) + 1,
        Instr::LocalSet(_) => height.saturating_sub(1),
        Instr::GlobalSet(_) => height.saturating_sub(1),
        Instr::Drop => height.saturating_sub(1),
        Instr::BrIf(_) => height.saturating_sub(1),
        Instr::Store { .. } => height.saturating_sub(2),
        Instr::MemoryCopy => height.saturating_sub(3),
        Instr::MemoryFill => height.saturating_sub(3),
        Instr::Call(func) => {
            let below = height.saturating_sub(func_params(source, sorts, *func));
            below + func_results(source, sorts, *func).min(1)
        }
        Instr::CallIndirect(sort) => {
            let below = height.saturating_sub(1 + sort_params(source, *sort));
            below + sort_results(source, *sort).min(1)
        }
        Instr::Block { result, .. } => height + usize::from(result.is_some()),
        Instr::Loop { result, .. } => height + usize::from(result.is_some()),
        Instr::If { result, .. } => height.saturating_sub(1) + usize::from(result.is_some()),
        Instr::LocalTee(_) => height,
        Instr::Nop => height,
        Instr::Br(_) => height,
        Instr::BrTable { .. } => height,
        Instr::Return => height,
        Instr::Unreachable => height,
    }
}
