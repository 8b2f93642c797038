//! The weight of a function, which bounds the size of its rewritten form.

ghost use Rattle.std.specs.Prelude.{◌≡◌, ◌+◌, ◌^◌, ◌<◌, length, slice_get};
ghost use Rattle.wa_types.specs.Syntax.{done};
ghost use Rattle.wa_types.specs.View.{code, in_front, func_of, module_of};
ghost use Rattle.wa_types.specs.Pruned.{pruned};
ghost use Rattle.wa_types.specs.Modules.{declared_locals, func_sorts, func_type_at, type_at};
ghost use Rattle.wa_types.specs.Bounds.{Weight, code_weight};

use crate::instrs::Instr;
use crate::syntax::{Func, ImportKind, Module, Run};

/// The weight of a function: the number of instructions, labels of `br_table` and call parameters of its pruned
/// body, plus its parameters and locals. A type or function index out of range counts no parameters.
/// Takes no memory, so each call looks through the imports.
pub fn weight(module: &Module, func: &Func) -> u64
    requires { Weight (module_of «module».now) (func_of func.now) < 2 ^ 64 }
    ensures { result ≡ Weight (module_of «module».now) (func_of func.now) }
{
    let locals = type_params(module, func.sort) + local_count(&func.locals);
    body_weight(module, &func.body) + locals
}

#[tactic(auto, using(crate::proofs::WeightLemmas::counting))]
fn local_count(runs: &[Run]) -> u64
    requires { length (declared_locals runs.now) < 2 ^ 64 }
    ensures { result ≡ length (declared_locals runs.now) }
{
    let mut n = 0;
    for run in runs {
        n += run.count as u64;
    }
    n
}

// The number of parameters of the type of this index.
#[tactic(auto, using(crate::proofs::WeightLemmas::finding))]
fn type_params(module: &Module, sort: u32) -> u64
    ensures { result ≡ length (type_at (module_of «module».now) sort).params }
{
    match module.types.get(sort as usize) {
        Some(ty) => ty.params.len() as u64,
        None => 0,
    }
}

// The index of the type of the function of this index.
#[tactic(auto, using(crate::proofs::WeightLemmas::finding))]
fn sort_of(module: &Module, func: u32) -> Option<u32>
    ensures { result ≡ slice_get (func_sorts (module_of «module».now)) func }
{
    let mut left = func as usize;
    for import in &module.imports {
        if let ImportKind::Func(sort) = import.kind {
            if left == 0 {
                return Some(sort);
            }
            left -= 1;
        }
    }
    match module.funcs.get(left) {
        Some(func) => Some(func.sort),
        None => None,
    }
}

// The number of parameters of the function of this index.
#[tactic(auto, using(crate::proofs::WeightLemmas::finding))]
fn func_params(module: &Module, func: u32) -> u64
    ensures { result ≡ length (func_type_at (module_of «module».now) func).params }
{
    match sort_of(module, func) {
        Some(sort) => type_params(module, sort),
        None => 0,
    }
}

#[cycle(weight)]
#[tactic(auto, using(crate::proofs::WeightLemmas::weighing))]
fn body_weight(module: &Module, body: &[Instr]) -> u64
    requires { code_weight (module_of «module».now) (pruned (code body.now)) < 2 ^ 64 }
    ensures { result ≡ code_weight (module_of «module».now) (pruned (code body.now)) }
{
    let mut n = 0;
    for instr in body {
        n += instr_weight(module, instr);
        if instr.is_last() {
            return n;
        }
    }
    n
}

#[cycle(weight)]
#[tactic(auto, using(crate::proofs::WeightLemmas::weighing))]
fn instr_weight(module: &Module, instr: &Instr) -> u64
    requires { code_weight (module_of «module».now) (pruned (in_front instr.now done)) < 2 ^ 64 }
    ensures { result ≡ code_weight (module_of «module».now) (pruned (in_front instr.now done)) }
{
    match instr {
        Instr::BrTable { labels, last: _ } => 1 + labels.len() as u64 + 1,
        Instr::Call(func) => 1 + func_params(module, *func),
        Instr::CallIndirect(sort) => 1 + type_params(module, *sort),
        Instr::Block { result: _, body } => 1 + body_weight(module, body),
        Instr::Loop { result: _, body } => 1 + body_weight(module, body),
        Instr::If {
            result: _,
            then_arm,
            else_arm,
        } => 1 + body_weight(module, then_arm) + body_weight(module, else_arm),
        _ => 1,
    }
}
