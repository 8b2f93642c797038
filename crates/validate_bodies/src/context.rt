//! Contexts: what stands around a body (standard, section 3.1.1).

ghost use Rattle.std.specs.Prelude.{◌≡◌, ◌<◌, true, None, Some, MatchOption, length, slice_get};
ghost use Rattle.wa_types.specs.View.{func_type_of, module_of};
ghost use Rattle.wa_types.specs.Modules.{around, declared_locals};
ghost use Rattle.wa_types.specs.Syntax.{Func as PlainFunc};
ghost use Rattle.wa_types.specs.Validity.{types_there};
ghost use Rattle.validate_bodies.specs.Spaces.{ends_from, ends_of, global_type_of, SpacesOf};

use crate::spaces::{FEW_RUNS, GlobalType, Spaces};
use std::marker::Model;
use wa_types::{FuncType, Module, Run, ValType};

/// What stands around a body (standard, section 3.1.1). Contracts see the context of the definitions.
#[derive(Drop)]
pub struct Context<'m> {
    types: &'m [FuncType],
    sorts: &'m [u32],
    table: bool,
    memory: bool,
    globals: &'m [GlobalType],
    params: &'m [ValType],
    runs: &'m [Run],
    ends: &'m [u64],
    result: Option<ValType>,
}

impl<'m> Model for Context<'m> {
    ghost use Rattle.std.specs.Prelude.{◌≡◌, ◌<◌, ◌++◌, All, length, map, slice_get};
    ghost use Rattle.wa_types.specs.Typing.{Around};
    ghost use Rattle.wa_types.specs.Modules.{declared_locals, or_empty};
    ghost use Rattle.wa_types.specs.View.{func_type_of};
    ghost use Rattle.validate_bodies.specs.Spaces.{ends_of, global_type_of};

    ghost Value = { Around };

    ghost view = { λ c. record {
      types = map func_type_of c.types.now;
      funcs = map (λ s. or_empty (slice_get (map func_type_of c.types.now) s)) c.sorts.now;
      table = c.table;
      memory = c.memory;
      globals = map global_type_of c.globals.now;
      locals = c.params.now ++ declared_locals c.runs.now;
      result = c.result;
    } };

    ghost invariant = { λ c. (c.ends.now ≡ ends_of c.runs.now) × All (λ s. s < length c.types.now) c.sorts.now };
}

impl<'m> Context<'m> {
    /// What stands around the body of the defined function of this index, counted without imported ones.
    pub fn of(module: &'m Module, spaces: &'m Spaces, index: usize) -> Context<'m>
        requires spaces { SpacesOf (module_of «module».now) spaces.now }
        requires sorts { types_there (module_of «module».now) ≡ true }
        requires index { index < length «module».now.funcs.items }
        ensures { (f : PlainFunc) → slice_get (module_of «module».now).funcs index ≡ Some f → result ≡ around (module_of «module».now) f }
    {
        let func = &module.funcs[index];
        let ty = &module.types[func.sort as usize];
        Context {
            types: &module.types,
            sorts: &spaces.sorts,
            table: spaces.tables > 0,
            memory: spaces.memories > 0,
            globals: &spaces.globals,
            params: &ty.params,
            runs: &func.locals,
            ends: &spaces.ends[index],
            result: first_result(ty),
        }
    }

    pub fn has_table(&self) -> bool
        ensures { result ≡ self.now.table }
    {
        self.table
    }

    pub fn has_memory(&self) -> bool
        ensures { result ≡ self.now.memory }
    {
        self.memory
    }

    pub fn result(&self) -> Option<ValType>
        ensures { result ≡ self.now.result }
    {
        self.result
    }

    /// The type of this index.
    #[tactic(auto, using(crate::proofs::ContextLemmas::looking))]
    pub fn sort(&self, x: u32) -> Option<&'m FuncType>
        ensures { MatchOption result (slice_get self.now.types x ≡ None) (λ t. slice_get self.now.types x ≡ Some (func_type_of t.now)) }
    {
        self.types.get(x as usize)
    }

    /// The type of the function of this index.
    #[tactic(auto, using(crate::proofs::ContextLemmas::finding))]
    pub fn func(&self, x: u32) -> Option<&'m FuncType>
        ensures { MatchOption result (slice_get self.now.funcs x ≡ None) (λ t. slice_get self.now.funcs x ≡ Some (func_type_of t.now)) }
    {
        let Some(sort) = self.sorts.get(x as usize) else {
            return None;
        };
        self.types.get(*sort as usize)
    }

    /// The global of this index.
    #[tactic(auto, using(crate::proofs::ContextLemmas::looking))]
    pub fn global(&self, x: u32) -> Option<GlobalType>
        ensures { MatchOption result (slice_get self.now.globals x ≡ None) (λ g. slice_get self.now.globals x ≡ Some (global_type_of g)) }
    {
        self.globals.get(x as usize).copied()
    }

    /// The type of the local of this index.
    #[tactic(auto, using(crate::proofs::ContextLemmas::locals))]
    pub fn local(&self, x: u32) -> Option<ValType>
        ensures { result ≡ slice_get self.now.locals x }
    {
        let x = x as usize;
        if x < self.params.len() {
            return Some(self.params[x]);
        }
        declared(self.runs, self.ends, (x - self.params.len()) as u64)
    }
}

/// The result of a type, if it has one.
fn first_result(ty: &FuncType) -> Option<ValType>
    ensures { result ≡ slice_get ty.now.results.items 0 }
{
    ty.results.get(0).copied()
}

/// The type of the declared local of this index: that of the run in which it lies.
#[tactic(auto, using(crate::proofs::SpaceLemmas::choosing))]
fn declared(runs: &[Run], ends: &[u64], x: u64) -> Option<ValType>
    requires { ends.now ≡ ends_of runs.now }
    ensures { result ≡ slice_get (declared_locals runs.now) x }
{
    if runs.len() <= FEW_RUNS {
        return gone_through(runs, x);
    }
    halved(runs, ends, x)
}

/// The same, run by run.
#[tactic(auto, using(crate::proofs::ContextLemmas::walking))]
fn gone_through(runs: &[Run], x: u64) -> Option<ValType>
    ensures { result ≡ slice_get (declared_locals runs.now) x }
{
    let mut left = x;
    for run in runs {
        let count = run.count as u64;
        if left < count {
            return Some(run.ty);
        }
        left -= count;
    }
    None
}

/// The same, found by halving.
#[tactic(auto, using(crate::proofs::ContextLemmas::halving))]
fn halved(runs: &[Run], ends: &[u64], x: u64) -> Option<ValType>
    requires { ends.now ≡ ends_from 0 runs.now }
    ensures { result ≡ slice_get (declared_locals runs.now) x }
{
    let mut low = 0;
    let mut high = runs.len();
    while low < high {
        let mid = low + (high - low) / 2;
        if ends[mid] <= x {
            low = mid + 1;
        } else {
            high = mid;
        }
    }
    if low == runs.len() {
        return None;
    }
    Some(runs[low].ty)
}
