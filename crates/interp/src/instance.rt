//! Instances of valid modules: made, called, resumed, and their memory and globals shown (standard, sections 4.5.4 and 4.5.5).

ghost use Rattle.std.specs.Prelude.{◌≡◌, ◌<◌, ◌≤◌, ◌+◌, ◌-◌, ◌*◌, ◌^◌, ◌++◌, List, All, IfOk, IfErr, OnErr, None, nat_lt, vec_capacity, length, map, drop, reverse};
ghost use Rattle.std.specs.Bool.{OnTrue, OnFalse};
ghost use Rattle.std.specs.Coded.{codes};
ghost use Rattle.std.specs.Option.{option_copied, option_to_list};
ghost use Rattle.wa_types.specs.Memory.{IsWholePages, page_size, pages_of};
ghost use Rattle.wa_types.specs.Modules.{all_memories, all_tables};
ghost use Rattle.wa_types.specs.Validity.{Valid as IsValid};
ghost use Rattle.wa_types.specs.View.{module_of};
ghost use Rattle.wa_types.specs.contracts.instrs.Instr as instr;
ghost use Rattle.wa_model.specs.Step.{memory_max};
ghost use Rattle.interp.specs.WaitRooms.{WaitRoom, wait_prop};

use crate::go_on::{call_from_outside, go_on};
use crate::run::Steps;
use crate::turns::{Turn, Wait};
use interp_state::{MakeFault, Program, Store, all_memories, make_program, open, restore};
use std::alloc::{AllocError, Global};
use std::mem;
use wa_types::{Module, Value};
use wasm_validate::Valid;

/// An instance of a valid module: its store, and what waits for an import's answer.
#[derive(Drop)]
pub struct Instance<'m> {
    valid: &'m Valid,
    program: Program<'m>,
    store: Store,
    has_memory: bool,
    wait: Wait<'m>,
    ghost source_is: { program ≡ valid.now } by { Prim.hlevel (codes, instr.the_row.coded) },
    ghost most_is: { store.memory.max ≡ memory_max (module_of program) },
    ghost room_is: { WaitRoom (module_of program) wait } by { wait_prop (module_of program) wait },
    ghost has_is: { has_memory ≡ nat_lt 0 (length (all_memories (module_of program))) },
}

impl<'m> Instance<'m> {
    ghost use Rattle.interp.specs.Instance.{Awaits, CallLacks, Calls, FitsAgain, ResumeLacks, Resumes, nothing, waits_of};
    ghost use Rattle.interp_state.specs.Faults.{FailsAs};
    ghost use Rattle.wa_types.specs.Modules.{all_globals, func_sorts, func_type_at, imported, imported_global};
    ghost use Rattle.run_theory.specs.Fitting.{types_of, global_types, results_of, StoreFits};
    ghost use Rattle.wa_types.specs.declared.values.ValType.{ValType};
    ghost use Rattle.wa_model.specs.Instantiation.{elem_piece, first_out, least_of, opening, opens};
    ghost use Rattle.interp_state.specs.Making.{restored_store};
    ghost use Rattle.interp_state.specs.Rooms.{HasFewInstrs};
    ghost use Rattle.interp.specs.Host.{code_in, store_in, waits_in, memory_in, memory_of, CallsAside, Pokes};
    ghost use Rattle.interp.specs.Restoring.{IsRestorable};

    /// An instance of a module whose imported globals have these values, one each of its type, before its start function
    /// runs (standard, section 4.5.4).
    pub fn make(
        alloc: Global,
        valid: &'m Valid,
        globals: &[Value],
    ) -> Result<Instance<'m>, MakeFault>
        ensures code { IfOk result (λ i. code_in i ≡ module_of valid.now) }
        ensures store { IfOk result (λ i. opening (module_of valid.now) globals.now ≡ opens (store_in i)) }
        ensures fits { types_of globals.now ≡ global_types (imported imported_global (module_of valid.now)) → IfOk result (λ i. StoreFits (code_in i) (store_in i)) }
        ensures waits { IfOk result (λ i. waits_in i ≡ nothing) }
        ensures err { IfErr result (FailsAs (opening (module_of valid.now) globals.now)) }
    {
        Instance::of(alloc, valid, valid.module(), globals)
    }

    // The same, with the module that the valid one holds.
    fn of(
        alloc: Global,
        valid: &'m Valid,
        source: &'m Module,
        globals: &[Value],
    ) -> Result<Instance<'m>, MakeFault>
        requires same { source.now ≡ valid.now }
        requires elems { length source.now.elems.items < 2 ^ 32 }
        requires segments { length source.now.segments.items < 2 ^ 32 }
        requires few { All HasFewInstrs source.now.funcs.items }
        ensures code { IfOk result (λ i. code_in i ≡ module_of source.now) }
        ensures store { IfOk result (λ i. opening (module_of source.now) globals.now ≡ opens (store_in i)) }
        ensures waits { IfOk result (λ i. waits_in i ≡ nothing) }
        ensures err { IfErr result (FailsAs (opening (module_of source.now) globals.now)) }
    {
        let memories = all_memories(alloc, source)?;
        let has_memory = memories.len() > 0;
        let store = open(alloc, source, &memories, globals)?;
        let program = make_program(alloc, source)?;
        Ok(Instance {
            valid,
            program,
            store,
            has_memory,
            wait: Wait::Nothing,
        })
    }

    /// An instance of a module with these globals, one each by index and of its type, and this memory. Its table is that of
    /// instantiation, whose element segments fit it; start isn't run, and nothing waits.
    pub fn restore(
        alloc: Global,
        valid: &'m Valid,
        globals: &[Value],
        memory: &[u8],
    ) -> Result<Instance<'m>, AllocError>
        requires globals { types_of globals.now ≡ global_types (all_globals (module_of valid.now)) }
        requires elems { first_out (least_of (all_tables (module_of valid.now))) 0 (map (elem_piece globals.now) (module_of valid.now).elems) ≡ None }
        requires entries { least_of (all_tables (module_of valid.now)) ≤ 100000 }
        requires memory { IsRestorable (module_of valid.now) memory.now }
        ensures code { IfOk result (λ i. code_in i ≡ module_of valid.now) }
        ensures store { IfOk result (λ i. store_in i ≡ restored_store (module_of valid.now) globals.now memory.now) }
        ensures fits { IfOk result (λ i. StoreFits (code_in i) (store_in i)) }
        ensures waits { IfOk result (λ i. waits_in i ≡ nothing) }
    {
        Instance::restored(alloc, valid, valid.module(), globals, memory)
    }

    // The same, with the module that the valid one holds.
    fn restored(
        alloc: Global,
        valid: &'m Valid,
        source: &'m Module,
        globals: &[Value],
        memory: &[u8],
    ) -> Result<Instance<'m>, AllocError>
        requires same { source.now ≡ valid.now }
        requires few { All HasFewInstrs source.now.funcs.items }
        requires elems { first_out (least_of (all_tables (module_of source.now))) 0 (map (elem_piece globals.now) (module_of source.now).elems) ≡ None }
        requires memory { IsWholePages memory.now }
        ensures code { IfOk result (λ i. code_in i ≡ module_of source.now) }
        ensures store { IfOk result (λ i. store_in i ≡ restored_store (module_of source.now) globals.now memory.now) }
        ensures waits { IfOk result (λ i. waits_in i ≡ nothing) }
    {
        let memories = all_memories(alloc, source)?;
        let has_memory = memories.len() > 0;
        let store = restore(alloc, source, &memories, globals, memory)?;
        let program = make_program(alloc, source)?;
        Ok(Instance {
            valid,
            program,
            store,
            has_memory,
            wait: Wait::Nothing,
        })
    }

    // The code is valid.
    fn valid_code(&self)
        ensures { IsValid (code_in self.now) }
    {
        self.valid.module();
    }

    /// Calls a function of the module on an empty stack, in place of what waits, with arguments of its types (standard,
    /// section 4.5.5). It goes on to the first return, trap or call of an import, or up to a reduction that costs more than
    /// is left. Memory may be wanting at its start, where a call or `memory.grow` stands next, and nowhere else. After want of
    /// memory or `StepsSpent` no further turn is asked of the instance.
    pub fn begin(
        &mut self,
        func: u32,
        args: &[Value],
        steps: &mut Steps,
    ) -> Result<Turn, AllocError>
        requires sum_fits { steps.old.left + steps.old.used < 2 ^ 64 }
        ensures calls { StoreFits (code_in self.old) (store_in self.old) → types_of args.now ≡ (func_type_at (code_in self.old) func).params
            → IfOk result (λ t. Calls (code_in self.old) (store_in self.old) func args.now steps.old.left (steps.new.used - steps.old.used) t (store_in self.new) (waits_in self.new)) }
        ensures lacks { IfErr result (λ _. StoreFits (code_in self.old) (store_in self.old) → types_of args.now ≡ (func_type_at (code_in self.old) func).params
            → CallLacks (code_in self.old) (store_in self.old) func args.now (steps.new.used - steps.old.used) (store_in self.new)) }
        ensures again { func < length (func_sorts (code_in self.old)) → StoreFits (code_in self.old) (store_in self.old) → types_of args.now ≡ (func_type_at (code_in self.old) func).params
            → IfOk result (λ t. FitsAgain (code_in self.old) (results_of (code_in self.old) func) t (store_in self.new) (waits_in self.new)) }
        ensures code { code_in self.new ≡ code_in self.old }
        ensures sum { steps.new.left + steps.new.used ≡ steps.old.left + steps.old.used }
        ensures grows { steps.old.used ≤ steps.new.used }
    {
        self.wait = Wait::Nothing;
        self.valid_code();
        let (turn, wait) = call_from_outside(&self.program, &mut self.store, func, args, steps)?;
        self.wait = wait;
        Ok(turn)
    }

    /// Calls a function as `begin` does, and leaves what waits as it is. After a trap or a call of an import too no further
    /// turn is asked of the instance.
    pub fn aside(
        &mut self,
        func: u32,
        args: &[Value],
        steps: &mut Steps,
    ) -> Result<Turn, AllocError>
        requires sum_fits { steps.old.left + steps.old.used < 2 ^ 64 }
        ensures calls { StoreFits (code_in self.old) (store_in self.old) → types_of args.now ≡ (func_type_at (code_in self.old) func).params
            → IfOk result (λ t. CallsAside (code_in self.old) (store_in self.old) func args.now steps.old.left (steps.new.used - steps.old.used) t (store_in self.new)) }
        ensures lacks { IfErr result (λ _. StoreFits (code_in self.old) (store_in self.old) → types_of args.now ≡ (func_type_at (code_in self.old) func).params
            → CallLacks (code_in self.old) (store_in self.old) func args.now (steps.new.used - steps.old.used) (store_in self.new)) }
        ensures again { func < length (func_sorts (code_in self.old)) → StoreFits (code_in self.old) (store_in self.old) → types_of args.now ≡ (func_type_at (code_in self.old) func).params
            → IfOk result (λ _. StoreFits (code_in self.old) (store_in self.new)) }
        ensures waits { waits_in self.new ≡ waits_in self.old }
        ensures code { code_in self.new ≡ code_in self.old }
        ensures sum { steps.new.left + steps.new.used ≡ steps.old.left + steps.old.used }
        ensures grows { steps.old.used ≤ steps.new.used }
    {
        self.valid_code();
        let (turn, _wait) = call_from_outside(&self.program, &mut self.store, func, args, steps)?;
        Ok(turn)
    }

    /// Gives what waits its answer, of the type of the import's result, and goes on as `begin` does. Memory may be wanting
    /// where a call or `memory.grow` stands next, and nowhere else.
    pub fn resume(&mut self, value: Option<Value>, steps: &mut Steps) -> Result<Turn, AllocError>
        requires waits { waits_in self.old ≡ nothing → ⊥ }
        requires sum_fits { steps.old.left + steps.old.used < 2 ^ 64 }
        ensures resumes { (outs : List ValType) → StoreFits (code_in self.old) (store_in self.old) → Awaits (code_in self.old) outs (types_of (option_to_list value)) (waits_in self.old)
            → IfOk result (λ t. Resumes (code_in self.old) (store_in self.old) (waits_in self.old) value steps.old.left (steps.new.used - steps.old.used) t (store_in self.new)
            (waits_in self.new)) }
        ensures lacks { IfErr result (λ _. (outs : List ValType) → StoreFits (code_in self.old) (store_in self.old)
            → Awaits (code_in self.old) outs (types_of (option_to_list value)) (waits_in self.old)
            → ResumeLacks (code_in self.old) (store_in self.old) (waits_in self.old) value (steps.new.used - steps.old.used) (store_in self.new)) }
        ensures again { (outs : List ValType) → StoreFits (code_in self.old) (store_in self.old) → Awaits (code_in self.old) outs (types_of (option_to_list value)) (waits_in self.old)
            → IfOk result (λ t. FitsAgain (code_in self.old) outs t (store_in self.new) (waits_in self.new)) }
        ensures code { code_in self.new ≡ code_in self.old }
        ensures sum { steps.new.left + steps.new.used ≡ steps.old.left + steps.old.used }
        ensures grows { steps.old.used ≤ steps.new.used }
    {
        self.valid_code();
        match mem::replace(&mut self.wait, Wait::Nothing) {
            Wait::Nothing => unreachable!(),
            Wait::Outermost => Ok(Turn::Returned(value)),
            Wait::Inside { mut stack, taken } => {
                answer(&mut stack.here.operands, taken, value)?;
                let (turn, wait) = go_on(&self.program, &mut self.store, stack, steps)?;
                self.wait = wait;
                Ok(turn)
            }
        }
    }

    /// Whether something waits for an import's answer, so that `resume` may be called.
    pub fn is_waiting(&self) -> bool
        ensures waits { OnTrue result (waits_in self.now ≡ nothing → ⊥) }
        ensures idle { OnFalse result (waits_in self.now ≡ nothing) }
    {
        !matches!(self.wait, Wait::Nothing)
    }

    /// All bytes of the memory, where the module has one.
    pub fn memory(&self) -> Option<&[u8]>
        ensures { option_copied result ≡ memory_of (code_in self.now) (store_in self.now) }
    {
        if self.has_memory {
            return Some(self.store.memory.bytes());
        }
        None
    }

    /// How many pages of 65,536 bytes the memory has; 0 where the module has none.
    pub fn pages(&self) -> u32
        ensures count { result ≡ pages_of (memory_in self.now) }
        ensures whole { length (memory_in self.now) ≡ result * page_size }
    {
        if self.has_memory {
            return self.store.memory.size();
        }
        0
    }

    /// Writes bytes into the memory. False exactly where there is no memory or they reach past it, and then nothing changes.
    pub fn poke(&mut self, at: u64, bytes: &[u8]) -> bool
        ensures store { Pokes (code_in self.old) (store_in self.old) at bytes.now result (store_in self.new) }
        ensures again { StoreFits (code_in self.old) (store_in self.old) → StoreFits (code_in self.old) (store_in self.new) }
        ensures waits { waits_in self.new ≡ waits_in self.old }
        ensures code { code_in self.new ≡ code_in self.old }
    {
        self.has_memory && self.store.memory.write(at, bytes)
    }

    /// The values of all globals, in index order.
    pub fn globals(&self) -> &[Value]
        ensures { result.now ≡ (store_in self.now).globals }
    {
        self.store.globals.as_slice()
    }
}

/// Takes off what the call took, and puts the answer in its place.
#[tactic(auto, using(crate::proofs::AnswerRoom::answering))]
fn answer(operands: &mut Vec<Value>, taken: usize, value: Option<Value>) -> Result<(), AllocError>
    ensures puts { IfOk result (λ _. reverse operands.new.items ≡ option_to_list value ++ drop taken (reverse operands.old.items)) }
    ensures holds { vec_capacity operands.old ≤ vec_capacity operands.new }
    ensures lacks { OnErr result (vec_capacity operands.old < length (option_to_list value ++ drop taken (reverse operands.old.items))) }
{
    operands.truncate(operands.len().saturating_sub(taken));
    match value {
        Some(v) => {
            operands.push(v)?;
            Ok(())
        }
        None => Ok(()),
    }
}
