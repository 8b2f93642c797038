//! Function types by index: those of types and of functions, with how many parameters and results they have (standard, section 2.5.1).

ghost use Rattle.std.specs.Prelude.{◌≡◌, ◌<◌, ◌^◌, MatchOption, length};
ghost use Rattle.wa_types.specs.Modules.{func_sorts, empty_type, type_at, func_type_at};
ghost use Rattle.wa_types.specs.View.{func_type_of, module_of};
ghost use Rattle.wa_model.specs.Step.{result_count};

use wa_types::{FuncType, Module};

/// The type of this index (standard, section 2.5.1).
#[tactic(auto, using(crate::proofs::ProgramLemmas::looking))]
pub fn sort_type<'m>(source: &'m Module, sort: u32) -> Option<&'m FuncType>
    ensures { MatchOption result (type_at (module_of source.now) sort ≡ empty_type) (λ t. type_at (module_of source.now) sort ≡ func_type_of t.now) }
{
    source.types.get(sort as usize)
}

/// The type of the function of this index, where those of all functions have these indices.
#[tactic(auto, using(crate::proofs::ProgramLemmas::typing))]
pub fn func_type<'m>(source: &'m Module, sorts: &[u32], func: u32) -> Option<&'m FuncType>
    requires { sorts.now ≡ func_sorts (module_of source.now) }
    ensures { MatchOption result (func_type_at (module_of source.now) func ≡ empty_type) (λ t. func_type_at (module_of source.now) func ≡ func_type_of t.now) }
{
    let sort = sorts.get(func as usize)?;
    sort_type(source, *sort)
}

/// How many parameters the type of this index has.
pub fn sort_params(source: &Module, sort: u32) -> usize
    ensures count { result ≡ length (type_at (module_of source.now) sort).params }
    ensures small { result < 2 ^ 63 }
{
    match sort_type(source, sort) {
        Some(ty) => ty.params.len(),
        None => 0,
    }
}

/// How many results the type of this index has.
pub fn sort_results(source: &Module, sort: u32) -> usize
    ensures { result ≡ length (type_at (module_of source.now) sort).results }
{
    match sort_type(source, sort) {
        Some(ty) => ty.results.len(),
        None => 0,
    }
}

/// How many parameters the function of this index has.
pub fn func_params(source: &Module, sorts: &[u32], func: u32) -> usize
    requires { sorts.now ≡ func_sorts (module_of source.now) }
    ensures count { result ≡ length (func_type_at (module_of source.now) func).params }
    ensures small { result < 2 ^ 63 }
{
    match func_type(source, sorts, func) {
        Some(ty) => ty.params.len(),
        None => 0,
    }
}

/// How many results the function of this index has.
pub fn func_results(source: &Module, sorts: &[u32], func: u32) -> usize
    requires { sorts.now ≡ func_sorts (module_of source.now) }
    ensures { result ≡ result_count (module_of source.now) func }
{
    match func_type(source, sorts, func) {
        Some(ty) => ty.results.len(),
        None => 0,
    }
}
