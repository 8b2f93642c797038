//! The first function with too many parameters and locals.

ghost use Rattle.std.specs.Prelude.{◌≡◌, ◌<◌, ◌^◌, All, length, map};
ghost use Rattle.wa_types.specs.declared.syntax.Func.{Func as FuncValue};
ghost use Rattle.wa_types.specs.View.{func_type_of, module_of};
ghost use Rattle.wa_types.specs.Marks.{first_above};
ghost use Rattle.wa_types.specs.Sizes.{params_of_type};
ghost use Rattle.wasm_reader.specs.Locals.{counts_of, module_locals};

use wa_types::{FuncType, Module, Run};

/// The number of parameters and locals of the first function that has more of them than the bound.
#[tactic(auto, using(crate::proofs::LocalCounts::judging))]
pub(crate) fn locals_above(module: &Module, bound: u32) -> Option<u64>
    requires { All (λ (f : FuncValue). length f.locals.items < 2 ^ 31) «module».now.funcs.items }
    ensures { result ≡ first_above bound (module_locals (module_of «module».now)) }
{
    for func in &module.funcs {
        let count = parameters(&module.types, func.sort) + declared(&func.locals);
        if count > bound as u64 {
            return Some(count);
        }
    }
    None
}

// The number of parameters of the type of this index; none where there is no such type.
#[tactic(auto, using(crate::proofs::LocalCounts::finding))]
fn parameters(types: &[FuncType], sort: u32) -> u64
    ensures count { result ≡ params_of_type (map func_type_of types.now) sort }
    ensures fits { result < 2 ^ 63 }
{
    match types.get(sort as usize) {
        Some(ty) => ty.params.len() as u64,
        None => 0,
    }
}

// The number of locals that the runs declare.
#[tactic(auto, using(crate::proofs::LocalCounts::counting))]
fn declared(runs: &[Run]) -> u64
    requires { length runs.now < 2 ^ 31 }
    ensures count { result ≡ counts_of runs.now }
    ensures fits { result < 2 ^ 63 }
{
    let mut count = 0;
    for run in runs {
        count += run.count as u64;
    }
    count
}
