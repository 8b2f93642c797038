//! From reductions to turns: a stack that goes on, and a call from outside on a fresh stack.

ghost use Rattle.std.specs.Prelude.{◌≡◌, ◌<◌, ◌≤◌, ◌+◌, ◌-◌, ◌^◌, List, IfOk, IfErr};
ghost use Rattle.wa_types.specs.declared.values.ValType.{ValType};
ghost use Rattle.wa_types.specs.Modules.{func_type_at};
ghost use Rattle.wa_types.specs.Validity.{Valid};
ghost use Rattle.wa_types.specs.View.{module_of};
ghost use Rattle.wa_model.specs.Step.{memory_max};
ghost use Rattle.run_theory.specs.Fitting.{types_of, Fits, StoreFits};
ghost use Rattle.interp.specs.Instance.{CallLacks, Calls, Turns, waits_of};
ghost use Rattle.interp.specs.StackRooms.{StackRoom};
ghost use Rattle.interp.specs.WaitRooms.{WaitRoom};
ghost use Rattle.interp.specs.Runs.{LacksAt};
ghost use Rattle.interp_state.specs.View.{store_of, running_of};

use crate::calls::{args_of, enter};
use crate::run::{Steps, Stop, pay, run};
use crate::turns::{Turn, Wait};
use interp_state::{Program, Stack, Store};
use std::alloc::AllocError;
use wa_model::Call;
use wa_types::Value;

/// Runs a stack until it returns, traps, waits or has spent its steps.
#[inline(never)]
pub fn go_on<'m>(
    program: &Program<'m>,
    store: &mut Store,
    mut stack: Stack<'m>,
    steps: &mut Steps,
) -> Result<(Turn, Wait<'m>), AllocError>
    requires most { store.old.memory.max ≡ memory_max (module_of program.now) }
    requires fits { steps.old.left + steps.old.used < 2 ^ 64 }
    ensures turns { Valid (module_of program.now) → (outs : List ValType) × Fits (module_of program.now) outs (running_of (store_of store.old) stack.entry)
        → IfOk result (λ t. Turns (module_of program.now) (running_of (store_of store.old) stack.entry) steps.old.left (steps.new.used - steps.old.used) t.0 (store_of store.new)
        (waits_of t.1)) }
    ensures holds { IfOk result (λ t. StackRoom (module_of program.now) stack.entry → WaitRoom (module_of program.now) t.1) }
    ensures lacks { IfErr result (λ _. Valid (module_of program.now) → (outs : List ValType)
        × Fits (module_of program.now) outs (running_of (store_of store.old) stack.entry) → StackRoom (module_of program.now) stack.entry
        → LacksAt (module_of program.now) (running_of (store_of store.old) stack.entry) (steps.new.used - steps.old.used) (store_of store.new)) }
    ensures sum { steps.new.left + steps.new.used ≡ steps.old.left + steps.old.used }
    ensures grows { steps.old.used ≤ steps.new.used }
    ensures max { store.new.memory.max ≡ store.old.memory.max }
{
    // A copy, so that the loop keeps its numbers in registers.
    let mut paid = *steps;
    let ran = run(program, store, &mut stack, &mut paid);
    *steps = paid;
    match ran? {
        Stop::Returned(value) => Ok((Turn::Returned(value), Wait::Nothing)),
        Stop::Trapped(trap) => Ok((Turn::Trapped(trap), Wait::Nothing)),
        Stop::Asked { import, own, taken } => {
            let args = args_of(&stack.here.operands, own, taken.saturating_sub(own));
            let args = Vec::from_slice(program.alloc(), args)?;
            let wait = Wait::Inside { stack, taken };
            Ok((Turn::Waiting(Call { import, args }), wait))
        }
        Stop::Spent => Ok((Turn::StepsSpent, Wait::Nothing)),
    }
}

/// Calls a function from outside, on a fresh stack.
pub fn call_from_outside<'m>(
    program: &Program<'m>,
    store: &mut Store,
    func: u32,
    args: &[Value],
    steps: &mut Steps,
) -> Result<(Turn, Wait<'m>), AllocError>
    requires most { store.old.memory.max ≡ memory_max (module_of program.now) }
    requires fits { steps.old.left + steps.old.used < 2 ^ 64 }
    ensures calls { Valid (module_of program.now) → StoreFits (module_of program.now) (store_of store.old)
        → types_of args.now ≡ (func_type_at (module_of program.now) func).params
        → IfOk result (λ t. Calls (module_of program.now) (store_of store.old) func args.now steps.old.left (steps.new.used - steps.old.used) t.0 (store_of store.new)
        (waits_of t.1)) }
    ensures holds { IfOk result (λ t. WaitRoom (module_of program.now) t.1) }
    ensures lacks { IfErr result (λ _. Valid (module_of program.now) → StoreFits (module_of program.now) (store_of store.old)
        → types_of args.now ≡ (func_type_at (module_of program.now) func).params
        → CallLacks (module_of program.now) (store_of store.old) func args.now (steps.new.used - steps.old.used) (store_of store.new)) }
    ensures sum { steps.new.left + steps.new.used ≡ steps.old.left + steps.old.used }
    ensures grows { steps.old.used ≤ steps.new.used }
    ensures max { store.new.memory.max ≡ store.old.memory.max }
{
    let more = args.len() as u64;
    if steps.left <= more {
        return Ok((Turn::StepsSpent, Wait::Nothing));
    }
    let Some(callee) = program.defined(func) else {
        let args = Vec::from_slice(program.alloc(), args)?;
        pay(steps, more);
        return Ok((Turn::Waiting(Call { import: func, args }), Wait::Outermost));
    };
    let here = enter(program, func, callee, args)?;
    let under = Vec::new(program.alloc());
    pay(steps, more);
    go_on(program, store, Stack { here, under }, steps)
}
