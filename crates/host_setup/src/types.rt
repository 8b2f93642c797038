//! The types of functions, and values that are of such types (standard, section 2.3.3).

ghost use Rattle.std.specs.Prelude.{◌≡◌, MatchOption, Option, ℕ, Some, None};
ghost use Rattle.wa_types.specs.Modules.{empty_type, func_imports, func_sorts, func_type_at, type_at};
ghost use Rattle.wa_types.specs.View.{func_type_of, module_of};
ghost use Rattle.wa_ops.specs.Operate.{are_of};
ghost use Rattle.wa_types.specs.Encoding.{same_type};
ghost use Rattle.wa_types.specs.Typing.{type_of};
ghost use Rattle.wa_model.specs.Step.{same_func_type, same_types};
ghost use Rattle.host_setup.specs.SetUp.{are_args, is_defined_as};

use wa_types::{FuncType, Module, ValType, Value};

/// Whether two lists of types are the same.
pub(crate) fn same_types(types: &[ValType], others: &[ValType]) -> bool
    ensures { result ≡ same_types types.now others.now }
{
    match types {
        [] => others.is_empty(),
        [ty, rest @ ..] => match others {
            [] => false,
            [other, behind @ ..] => same_type(*ty, *other) && same_types(rest, behind),
        },
    }
}

fn same_type(ty: ValType, other: ValType) -> bool
    ensures { result ≡ same_type ty other }
{
    match (ty, other) {
        (ValType::I32, ValType::I32) => true,
        (ValType::I64, ValType::I64) => true,
        _ => false,
    }
}

/// Whether values are of these types, one each.
pub(crate) fn are_of(types: &[ValType], values: &[Value]) -> bool
    ensures { result ≡ are_of types.now values.now }
{
    match types {
        [] => values.is_empty(),
        [ty, rest @ ..] => match values {
            [] => false,
            [value, behind @ ..] => is_of(*ty, *value) && are_of(rest, behind),
        },
    }
}

fn is_of(ty: ValType, value: Value) -> bool
    ensures { result ≡ same_type ty (type_of value) }
{
    match value {
        Value::I32(_) => ty == ValType::I32,
        Value::I64(_) => ty == ValType::I64,
    }
}

/// The type of the function of this index, where those of all functions have these indices.
#[tactic(auto, using(crate::proofs::IndexTypes::typing))]
pub(crate) fn func_type<'m>(module: &'m Module, sorts: &[u32], func: u32) -> Option<&'m FuncType>
    requires { sorts.now ≡ func_sorts (module_of «module».now) }
    ensures { MatchOption result (func_type_at (module_of «module».now) func ≡ empty_type) (λ t. func_type_at (module_of «module».now) func ≡ func_type_of t.now) }
{
    let sort = sorts.get(func as usize)?;
    sort_type(module, *sort)
}

#[tactic(auto, using(crate::proofs::IndexTypes::looking))]
fn sort_type<'m>(module: &'m Module, sort: u32) -> Option<&'m FuncType>
    ensures { MatchOption result (type_at (module_of «module».now) sort ≡ empty_type) (λ t. type_at (module_of «module».now) sort ≡ func_type_of t.now) }
{
    module.types.get(sort as usize)
}

/// Whether it is a defined function with these parameters and results.
pub(crate) fn is_defined_as(
    module: &Module,
    sorts: &[u32],
    imports: usize,
    func: Option<u32>,
    params: &[ValType],
    results: &[ValType],
) -> bool
    requires sorts { sorts.now ≡ func_sorts (module_of «module».now) }
    requires imports { imports ≡ func_imports (module_of «module».now) }
    ensures { result ≡ is_defined_as (module_of «module».now) (record { params = params.now; results = results.now }) func }
{
    match func {
        None => false,
        Some(func) => imports <= func as usize && has_type(module, sorts, func, params, results),
    }
}

fn has_type(
    module: &Module,
    sorts: &[u32],
    func: u32,
    params: &[ValType],
    results: &[ValType],
) -> bool
    requires { sorts.now ≡ func_sorts (module_of «module».now) }
    ensures { result ≡ same_func_type (func_type_at (module_of «module».now) func) (record { params = params.now; results = results.now }) }
{
    match func_type(module, sorts, func) {
        Some(ty) => same_types(&ty.params, params) && same_types(&ty.results, results),
        None => same_types(&[], params) && same_types(&[], results),
    }
}

/// Whether it is a function, and values are arguments of it.
pub(crate) fn are_args(module: &Module, sorts: &[u32], args: &[Value], func: Option<u32>) -> bool
    requires { sorts.now ≡ func_sorts (module_of «module».now) }
    ensures { result ≡ are_args (module_of «module».now) args.now func }
{
    match func {
        None => false,
        Some(func) => match func_type(module, sorts, func) {
            Some(ty) => are_of(&ty.params, args),
            None => args.is_empty(),
        },
    }
}
