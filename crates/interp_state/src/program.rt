//! A module with what is looked up at calls.

ghost use Rattle.std.specs.Prelude.{◌≡◌, ◌<◌, ◌^◌, Some, None, All, IfOk, MatchOption, length, nat_lt};
ghost use Rattle.wa_types.specs.Modules.{func_imports, type_at, func_type_at, defined_at};
ghost use Rattle.wa_types.specs.Syntax.{Func as PlainFunc};
ghost use Rattle.wa_types.specs.View.{func_of, module_of};
ghost use Rattle.wa_model.specs.Step.{result_count, same_types, same_func_type};
ghost use Rattle.interp_state.specs.Rooms.{room_of, HasFewInstrs};

use crate::rooms::{Room, all_rooms};
use crate::types;
use std::alloc::{AllocError, Global};
use std::marker::Model;
use validate_bodies::{all_sorts, imported_sorts};
use wa_types::{Func, Module, ValType};

/// A module with what is looked up at calls: the index of each function's type, imports first, how many functions are
/// imported (standard, section 2.5.1), and what the activations of each defined one reserve. Contracts see the module.
#[derive(Drop)]
pub struct Program<'m> {
    alloc: Global,
    source: &'m Module,
    sorts: Vec<u32>,
    imports: usize,
    rooms: Vec<Room>,
}

impl<'m> Model for Program<'m> {
    ghost use Rattle.std.specs.Coded.{codes};
    ghost use Rattle.std.specs.Prelude.{◌≡◌, map};
    ghost use Rattle.wa_types.specs.Modules.{func_sorts, func_imports};
    ghost use Rattle.wa_types.specs.View.{module_of};
    ghost use Rattle.wa_types.specs.declared.syntax.Module.{Module as ModuleValue};
    ghost use Rattle.wa_types.specs.contracts.instrs.Instr as instr;
    ghost use Rattle.interp_state.specs.Rooms.{room_at};

    ghost coded = { Prim.hlevel (codes, instr.the_row.coded) };

    ghost Value = { ModuleValue };

    ghost view = { λ s. s.source.now };

    ghost invariant = { λ s. (s.sorts.items ≡ func_sorts (module_of s.source.now)) × (s.imports ≡ func_imports (module_of s.source.now))
        × (s.rooms.items ≡ map (room_at (module_of s.source.now)) s.source.now.funcs.items) };
}

impl<'m> Program<'m> {
    /// The allocator that it was made with.
    pub fn alloc(&self) -> Global {
        self.alloc
    }

    /// Whether the function of this index is imported (standard, section 2.5.1).
    pub fn is_imported(&self, func: u32) -> bool
        ensures { result ≡ nat_lt func (func_imports (module_of self.now)) }
    {
        (func as usize) < self.imports
    }

    /// How many parameters the type of this index has.
    pub fn sort_params(&self, sort: u32) -> usize
        ensures count { result ≡ length (type_at (module_of self.now) sort).params }
        ensures small { result < 2 ^ 63 }
    {
        types::sort_params(self.source, sort)
    }

    /// How many parameters the function of this index has.
    pub fn func_params(&self, func: u32) -> usize
        ensures count { result ≡ length (func_type_at (module_of self.now) func).params }
        ensures small { result < 2 ^ 63 }
    {
        types::func_params(self.source, &self.sorts, func)
    }

    /// How many results the function of this index has.
    pub fn func_results(&self, func: u32) -> usize
        ensures { result ≡ result_count (module_of self.now) func }
    {
        types::func_results(self.source, &self.sorts, func)
    }

    /// The defined function of this index.
    #[tactic(auto, using(crate::proofs::ProgramLemmas::finding))]
    pub fn defined(&self, func: u32) -> Option<&'m Func>
        ensures { MatchOption result (defined_at (module_of self.now) func ≡ None) (λ f. defined_at (module_of self.now) func ≡ Some (func_of f.now)) }
    {
        let place = (func as usize).checked_sub(self.imports)?;
        self.source.funcs.get(place)
    }

    /// What the activations of a function reserve.
    pub fn room(&self, func: u32) -> Room
        requires { (f : PlainFunc) × (defined_at (module_of self.now) func ≡ Some f) }
        ensures { (f : PlainFunc) → defined_at (module_of self.now) func ≡ Some f → result ≡ room_of (module_of self.now) f }
    {
        self.rooms[func as usize - self.imports]
    }

    /// Whether a function has the type of this index.
    pub fn has_type(&self, func: u32, sort: u32) -> bool
        ensures { result ≡ same_func_type (func_type_at (module_of self.now) func) (type_at (module_of self.now) sort) }
    {
        let func_type = types::func_type(self.source, &self.sorts, func);
        match (func_type, types::sort_type(self.source, sort)) {
            (Some(f), Some(t)) => same_types(&f.params, &t.params)
                && same_types(&f.results, &t.results),
            (Some(f), None) => same_types(&f.params, &[]) && same_types(&f.results, &[]),
            (None, Some(t)) => same_types(&[], &t.params) && same_types(&[], &t.results),
            (None, None) => true,
        }
    }
}

/// What is looked up in a module.
pub fn make_program<'m>(alloc: Global, source: &'m Module) -> Result<Program<'m>, AllocError>
    requires { All HasFewInstrs source.now.funcs.items }
    ensures { IfOk result (λ p. p ≡ source.now) }
{
    let sorts = all_sorts(alloc, &source.imports, &source.funcs)?;
    let imports = imported_sorts(alloc, &source.imports)?.len();
    let rooms = all_rooms(alloc, source, &sorts)?;
    Ok(Program {
        alloc,
        source,
        sorts,
        imports,
        rooms,
    })
}

/// Whether two lists of types are the same.
#[tactic(auto, using(crate::proofs::TypeLemmas::same_lists))]
fn same_types(these: &[ValType], those: &[ValType]) -> bool
    ensures { result ≡ same_types these.now those.now }
{
    if these.len() != those.len() {
        return false;
    }
    for i in 0..these.len() {
        if these[i] != those[i] {
            return false;
        }
    }
    true
}
