//! Runs of reductions, each paid by its cost.

ghost use Rattle.std.specs.Prelude.{◌≡◌, ◌<◌, ◌≤◌, ◌+◌, ◌-◌, ◌^◌, List, IfOk, IfErr, OnOk};
ghost use Rattle.wa_types.specs.declared.values.ValType.{ValType};
ghost use Rattle.wa_types.specs.Validity.{Valid};
ghost use Rattle.wa_types.specs.View.{module_of};
ghost use Rattle.wa_model.specs.Step.{memory_max};
ghost use Rattle.run_theory.specs.Fitting.{Fits};
ghost use Rattle.interp.specs.StackRooms.{StackRoom};
ghost use Rattle.interp.specs.Runs.{LacksAt, RunsTo};
ghost use Rattle.interp_state.specs.View.{store_of, running_of};

use crate::reducing::reduce;
use interp_state::{Flow, Program, Stack, Store};
use std::alloc::AllocError;
use wa_types::{Trap, Value};

/// The steps that are left to pay with, and those that were used.
#[derive(Clone, Copy)]
pub struct Steps {
    pub left: u64,
    pub used: u64,
}

/// How a run came to stand.
#[derive(Clone, Copy)]
pub enum Stop {
    Returned(Option<Value>),
    Trapped(Trap),
    Asked {
        import: u32,
        own: usize,
        taken: usize,
    },
    Spent,
}

/// Pays for a reduction that costs `more` past 1.
pub fn pay(steps: &mut Steps, more: u64)
    requires enough { more < steps.old.left }
    requires fits { steps.old.left + steps.old.used < 2 ^ 64 }
    ensures left { steps.new.left + (more + 1) ≡ steps.old.left }
    ensures used { steps.new.used ≡ steps.old.used + (more + 1) }
{
    steps.left -= more + 1;
    steps.used += more + 1;
}

/// Goes on by reductions up to the first return, trap or call of an import, or to one that costs more than is left. Memory
/// may be wanting at calls and `memory.grow` alone.
#[inline(always)]
pub fn run<'m>(
    program: &Program<'m>,
    store: &mut Store,
    stack: &mut Stack<'m>,
    steps: &mut Steps,
) -> Result<Stop, AllocError>
    requires most { store.old.memory.max ≡ memory_max (module_of program.now) }
    requires fits { steps.old.left + steps.old.used < 2 ^ 64 }
    ensures runs { Valid (module_of program.now) → (outs : List ValType) × Fits (module_of program.now) outs (running_of (store_of store.old) stack.old)
        → IfOk result (λ t. RunsTo (module_of program.now) (running_of (store_of store.old) stack.old) steps.old.left (steps.new.used - steps.old.used) t
        (running_of (store_of store.new) stack.new)) }
    ensures holds { OnOk result (StackRoom (module_of program.now) stack.old → StackRoom (module_of program.now) stack.new) }
    ensures lacks { IfErr result (λ _. Valid (module_of program.now) → (outs : List ValType)
        × Fits (module_of program.now) outs (running_of (store_of store.old) stack.old) → StackRoom (module_of program.now) stack.old
        → LacksAt (module_of program.now) (running_of (store_of store.old) stack.old) (steps.new.used - steps.old.used) (store_of store.new)) }
    ensures sum { steps.new.left + steps.new.used ≡ steps.old.left + steps.old.used }
    ensures grows { steps.old.used ≤ steps.new.used }
    ensures max { store.new.memory.max ≡ store.old.memory.max }
{
    while steps.left > 0 {
        match reduce(program, store, stack, steps.left)? {
            Flow::Moved { more } => pay(steps, more),
            Flow::Returned { more, value } => {
                pay(steps, more);
                return Ok(Stop::Returned(value));
            }
            Flow::Trapped { more, trap } => {
                pay(steps, more);
                return Ok(Stop::Trapped(trap));
            }
            Flow::Asked {
                more,
                import,
                own,
                taken,
            } => {
                pay(steps, more);
                return Ok(Stop::Asked { import, own, taken });
            }
            Flow::Spent => return Ok(Stop::Spent),
        }
    }
    Ok(Stop::Spent)
}
