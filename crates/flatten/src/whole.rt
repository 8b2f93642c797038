//! The flat function of a defined function, and those of a whole module.

ghost use Rattle.std.specs.Prelude.{◌≡◌, ◌+◌, ◌<◌, ◌∷◌, ◌++◌, [], length, map, slice_get, Some, OnOk};
ghost use Rattle.run_theory.specs.FlatView.{flat_func_of};
ghost use Rattle.wa_types.specs.Modules.{func_imports};
ghost use Rattle.wa_types.specs.Sizes.{StrictSizeRule};
ghost use Rattle.wa_types.specs.Syntax.{Func as PlainFunc};
ghost use Rattle.wa_types.specs.View.{module_of};
ghost use Rattle.flatten.specs.Whole.{FlatAnswer, Flattens};

use crate::constructs::label_local;
use crate::fault::FlatFault;
use crate::find::find_names;
use crate::locals::{all_locals, count_runs};
use crate::start::flat_body;
use std::alloc::{AllocError, Global};
use wa_model::{FlatFunc, FlatModule};
use wa_types::{FuncType, ValType};
use wasm_validate::{Typing, Valid};

/// So many parameters and locals a rewritten function has at most.
const MOST_LOCALS: u32 = 50_000;

/// The result of a type, if it has one.
fn first_result(ty: &FuncType) -> Option<ValType>
    ensures { result ≡ slice_get ty.now.results.items 0 }
{
    ty.results.get(0).copied()
}

/// A flat function, with the first local behind its parameters and declared locals, and the first behind its slots.
#[derive(Drop)]
pub struct Flattened {
    pub func: FlatFunc,
    pub first_slot: u32,
    pub first_result: u32,
}

/// The flat function of a defined function, by its index among the defined ones. Takes time linear in its body and in what
/// is written.
pub fn flatten_func(
    alloc: Global,
    valid: &Valid,
    imports: usize,
    index: usize,
) -> Result<Flattened, FlatFault>
    requires sizes { StrictSizeRule (module_of valid.now) }
    requires imports { imports ≡ func_imports (module_of valid.now) }
    requires within { index < length valid.now.funcs.items }
    ensures { (f : PlainFunc) → slice_get (module_of valid.now).funcs index ≡ Some f → FlatAnswer (module_of valid.now) (imports + index) f result }
{
    let module = valid.module();
    let source = &module.funcs[index];
    let ty = &module.types[source.sort as usize];
    let func = (imports + index) as u32;
    let given = first_result(ty);
    let first = ty.params.len() as u32 + count_runs(&source.locals);
    let typing = Typing::start(alloc, valid, func)?;
    let names = find_names(alloc, typing, given, first, &source.body)?;
    let count = names.results.end() + 3;
    if count > MOST_LOCALS {
        return Err(FlatFault::Locals { func, count });
    }
    let locals = all_locals(alloc, &ty.params, &source.locals, &names)?;
    let typing = Typing::start(alloc, valid, func)?;
    let body = flat_body(alloc, typing, &names, given, &source.body)?;
    let first_result = names.slots.end();
    let flat = FlatFunc {
        func,
        sort: source.sort,
        locals,
        result: label_local(&names, 0, given),
        body,
    };
    Ok(Flattened {
        func: flat,
        first_slot: first,
        first_result,
    })
}

/// Puts a flat function behind others.
fn put_func(funcs: &mut Vec<FlatFunc>, flat: FlatFunc) -> Result<(), AllocError>
    ensures { OnOk result (map flat_func_of funcs.new.items ≡ map flat_func_of funcs.old.items ++ flat_func_of flat ∷ []) }
{
    funcs.push(flat)?;
    Ok(())
}

/// The flat functions of the defined functions that `which` tells, in index order. It has one answer for each function of
/// the module, imports first: those count for nothing. Where a told function would have too many locals, the first such.
/// Takes time linear in the bodies and in what is written.
pub fn flatten(alloc: Global, valid: &Valid, which: &[bool]) -> Result<FlatModule, FlatFault>
    requires sizes { StrictSizeRule (module_of valid.now) }
    requires which { length which.now ≡ func_imports (module_of valid.now) + length (module_of valid.now).funcs }
    ensures { Flattens (module_of valid.now) which.now result }
{
    let module = valid.module();
    let imports = which.len() - module.funcs.len();
    let mut funcs = Vec::new(alloc);
    for index in 0..module.funcs.len() {
        if !which[imports + index] {
            continue;
        }
        let flat = flatten_func(alloc, valid, imports, index)?;
        put_func(&mut funcs, flat.func)?;
    }
    Ok(FlatModule { funcs })
}
