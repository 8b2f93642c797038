//! Functions as they were emitted, with asserts, as entries of the code section.

ghost use Rattle.std.specs.Prelude.{◌≡◌, ◌+◌, ◌++◌, ◌<◌, ◌^◌, IfOk, List, ℕ, OnOk, length, map, slice_get};
ghost use Rattle.wa_types.specs.Pausing.{is_told};
ghost use Rattle.wa_types.specs.Syntax.{Func as PlainFunc};
ghost use Rattle.wa_types.specs.View.{func_of};
ghost use Rattle.wa_types.specs.declared.syntax.Func.{Func as FuncValue};
ghost use Rattle.wasm_encode.specs.Around.{HoldsEntries};
ghost use Rattle.assert_rewrite.specs.Asserting.{are_short, entries_with, func_with};

use crate::reached::assert_plain;
use crate::written::assert_free;
use std::alloc::{AllocError, Global};
use wa_types::Func;
use wasm_encode::CodeEntries;

/// Which calls have a number, and the global of the state.
#[derive(Drop)]
pub(crate) struct Numbers {
    /// The functions that may pause, imports first.
    pub(crate) which: Vec<bool>,
    /// The imports that may pause.
    pub(crate) listed: Vec<bool>,
    pub(crate) ignore_indirect: bool,
    pub(crate) state: u32,
}

/// Whether the function of this index may pause; those behind the module's own, of the runtime, can't.
fn is_told(which: &[bool], index: usize) -> bool
    ensures { result ≡ is_told (slice_get which.now index) }
{
    match which.get(index) {
        Some(told) => *told,
        None => false,
    }
}

/// A function as it was emitted, with asserts: one that was written behind its calls without a number, any other behind each call that
/// can be reached.
fn assert_func(
    alloc: Global,
    func: &Func,
    written: bool,
    numbers: &Numbers,
) -> Result<Func, AllocError>
    ensures { IfOk result (λ f. func_of f ≡ func_with numbers.now written (func_of func.now)) }
{
    if !written {
        return assert_plain(alloc, func, numbers.state);
    }
    Ok(Func {
        sort: func.sort,
        locals: Vec::from_slice(alloc, &func.locals)?,
        body: assert_free(
            alloc,
            &func.body,
            &numbers.which,
            &numbers.listed,
            numbers.ignore_indirect,
            numbers.state,
        )?,
    })
}

/// Puts the functions with asserts, the first having this index, as entries of the code section.
pub(crate) fn put_asserted(
    alloc: Global,
    out: &mut CodeEntries,
    funcs: &[Func],
    first: usize,
    numbers: &Numbers,
) -> Result<(), AllocError>
    requires count { first + length funcs.now < 2 ^ 63 }
    requires short { are_short numbers.now first (map func_of funcs.now) }
    ensures { OnOk result ((entries : List ℕ) → HoldsEntries out.old entries → HoldsEntries out.new (entries ++ entries_with numbers.now first (map func_of funcs.now))) }
{
    for index in 0..funcs.len() {
        let written = is_told(&numbers.which, first + index);
        let asserted = assert_func(alloc, &funcs[index], written, numbers)?;
        out.put(alloc, &asserted)?;
    }
    Ok(())
}
