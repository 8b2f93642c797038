//! What takes the functions of a module as they are emitted: a list of them, or entries of its code section.

ghost use Rattle.std.specs.Prelude.{◌≡◌, ◌++◌, ◌∷◌, [], List, map, OnOk, ⊤};
ghost use Rattle.std.specs.List.{flat_map};
ghost use Rattle.wa_types.specs.Syntax.{Func as PlainFunc};
ghost use Rattle.wa_types.specs.View.{func_of};
ghost use Rattle.wasm_encode.specs.Around.{code_entry, HoldsEntries};
ghost use Rattle.emitted_form.specs.PolicyBytes.{IsShortEntry};

use std::alloc::{AllocError, Global};
use wa_types::{Func, copy_func};
use wasm_encode::CodeEntries;

/// What takes functions, one behind the other.
pub trait FuncSink {
    // it holds these functions
    ghost holds: { Self → List PlainFunc → Type 0 };

    // it takes such a function
    ghost fits: { PlainFunc → Type 0 };

    /// Takes a function that stays as it is.
    fn keep(&mut self, alloc: Global, func: &Func) -> Result<(), AllocError>
        requires { fits (func_of func.now) }
        ensures { OnOk result ((fs : List PlainFunc) → holds self.old fs → holds self.new (fs ++ func_of func.now ∷ [])) };

    /// Takes a function that was written.
    fn take(&mut self, alloc: Global, func: Func) -> Result<(), AllocError>
        requires { fits (func_of func) }
        ensures { OnOk result ((fs : List PlainFunc) → holds self.old fs → holds self.new (fs ++ func_of func ∷ [])) };
}

impl FuncSink for Vec<Func> {
    ghost holds = { λ funcs fs. map func_of funcs.items ≡ fs };

    ghost fits = { λ _. ⊤ };

    fn keep(&mut self, alloc: Global, func: &Func) -> Result<(), AllocError> {
        let copy = copy_func(alloc, func)?;
        self.push(copy)?;
        Ok(())
    }

    fn take(&mut self, _alloc: Global, func: Func) -> Result<(), AllocError> {
        self.push(func)?;
        Ok(())
    }
}

impl FuncSink for CodeEntries {
    ghost holds = { λ entries fs. HoldsEntries entries (flat_map code_entry fs) };

    ghost fits = { λ f. IsShortEntry f };

    fn keep(&mut self, alloc: Global, func: &Func) -> Result<(), AllocError> {
        self.put(alloc, func)
    }

    fn take(&mut self, alloc: Global, func: Func) -> Result<(), AllocError> {
        self.put(alloc, &func)
    }
}
