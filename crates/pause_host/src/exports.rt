//! Calls of the five exports through which a host unwinds and rewinds a stack.

ghost use Rattle.std.specs.Prelude.{◌≡◌, ◌<◌, ◌≤◌, ◌+◌, ◌-◌, ◌^◌, IfOk};
ghost use Rattle.std.specs.Option.{option_to_list};
ghost use Rattle.run_theory.specs.Fitting.{StoreFits, types_of};
ghost use Rattle.wa_model.specs.Protocol.{Phase, is_state, trap_end};
ghost use Rattle.world_model.specs.World.{Program};
ghost use Rattle.run_laws.specs.FittingStates.{Callable};
ghost use Rattle.interp.specs.Host.{code_in, store_in, waits_in};
ghost use Rattle.pause_host.specs.Holding.{HoldsArea};
ghost use Rattle.pause_host.specs.Hosting.{HasMemory, MayCall};
ghost use Rattle.pause_host.specs.Moves.{Exports, IsSetting, WorksIn};

use crate::memory::used_of;
use crate::stages::Setting;
use interp::{Instance, Steps, Turn};
use std::alloc::AllocError;
use wa_model::End;
use wa_types::{Trap, Value};

/// What the host does with a stack when it calls an export.
#[derive(Clone, Copy)]
pub enum Work {
    Unwinding,
    Rewinding,
}

/// What an export returned, or how the program ended inside it.
#[derive(Drop)]
pub enum Exported {
    Returned(Option<Value>),
    Ended(End),
}

/// Calls one of the five exports on a fresh stack.
pub fn call_export(
    setting: &Setting,
    instance: &mut Instance<'_>,
    steps: &mut Steps,
    work: Work,
    func: u32,
    args: &[Value],
) -> Result<Exported, AllocError>
    requires few { steps.old.left + steps.old.used < 2 ^ 64 }
    requires may { MayCall setting.now (code_in instance.old) (store_in instance.old) func (types_of args.now) }
    ensures exports { (w : Program) → IsSetting w setting.now → code_in instance.old ≡ w.source → StoreFits w.source (store_in instance.old) → Callable w.source func (types_of args.now)
        → IfOk result (λ r. Exports w work (store_in instance.old) func args.now steps.old.left (steps.new.used - steps.old.used) r (store_in instance.new)) }
    ensures waits { waits_in instance.new ≡ waits_in instance.old }
    ensures code { code_in instance.new ≡ code_in instance.old }
    ensures sum { steps.new.left + steps.new.used ≡ steps.old.left + steps.old.used }
    ensures grows { steps.old.used ≤ steps.new.used }
{
    match instance.aside(func, args, steps)? {
        Turn::Returned(value) => return Ok(Exported::Returned(value)),
        Turn::Trapped(trap) => {
            let end = trap_end(setting, instance, work, trap);
            return Ok(Exported::Ended(end));
        }
        Turn::Waiting(_) => return Ok(Exported::Ended(End::Broken(6))),
        Turn::StepsSpent => return Ok(Exported::Ended(End::StepsSpent(setting.steps))),
    }
}

/// The end of a trap while the stack is unwound or rewound.
pub fn trap_end(setting: &Setting, instance: &Instance<'_>, work: Work, trap: Trap) -> End
    requires memory { HasMemory (code_in instance.now) }
    requires area { HoldsArea setting.now.area (store_in instance.now) }
    ensures { (ph : Phase) → WorksIn work ph → result ≡ trap_end setting.now.area ph trap (store_in instance.now) }
{
    match work {
        Work::Unwinding => {
            let used = used_of(instance, setting.area);
            let len = setting.area.len;
            End::UnwindTrap { trap, used, len }
        }
        Work::Rewinding => End::RewindTrap(trap),
    }
}

/// Whether an export returned this state.
pub fn is_state(state: u32, value: Option<Value>) -> bool
    ensures { result ≡ is_state state (option_to_list value) }
{
    match value {
        Some(Value::I32(told)) => told == state,
        _ => false,
    }
}
