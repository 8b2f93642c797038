//! A stack that waits, unwound: from the words of the area over `asyncify_start_unwind` to the pause.

ghost use Rattle.std.specs.Prelude.{◌≡◌, ◌<◌, ◌≤◌, ◌+◌, ◌-◌, ◌^◌, List, [], ◌∷◌, IfOk, length, map, slice_get};
ghost use Rattle.std.specs.Option.{option_to_list};
ghost use Rattle.wa_types.specs.declared.values.Value.TheVariants as V;
ghost use Rattle.wa_model.specs.Configuration.{Activation, Configuration};
ghost use Rattle.wa_model.specs.Store.{Store};
ghost use Rattle.wa_model.specs.Blocking.{Left as PlainLeft, resumed};
ghost use Rattle.wa_model.specs.Step.{zero_of};
ghost use Rattle.wa_model.specs.Protocol.{busy, calling, exports_of, pause_there, test_unwound, zeros_of};
ghost use Rattle.wa_model.specs.View.{answer_of};
ghost use Rattle.world_model.specs.World.{Program};
ghost use Rattle.run_laws.specs.FittingStates.{HeldFits};
ghost use Rattle.interp.specs.Host.{code_in, store_in, waits_in};
ghost use Rattle.interp.specs.Instance.{inside, nothing};
ghost use Rattle.pause_host.specs.Hosting.{HostsAt, HostsIn, HostsOver};
ghost use Rattle.pause_host.specs.Mailing.{MailSupply};
ghost use Rattle.pause_host.specs.Moves.{Comes, ComesFrom, IsSetting, PausesSo, PlaceFits, Stops};
ghost use Rattle.pause_host.specs.Views.{entry_of, pausing, unwinding};

use crate::ends::ended;
use crate::exports::{Exported, Work, call_export, is_state, trap_end};
use crate::memory::{used_of, write_words};
use crate::stages::{Moved, Pause, Setting, Stage};
use interp::{Instance, Steps, Turn};
use std::alloc::AllocError;
use wa_model::{End, Event};
use wa_types::{ValType, Value};

/// Unwinds the stack that waits: the words are written, and `asyncify_start_unwind` is called.
pub fn unwind(
    setting: &Setting,
    instance: &mut Instance<'_>,
    steps: &mut Steps,
    pause: Pause,
) -> Result<Moved, AllocError>
    requires few { steps.old.left + steps.old.used < 2 ^ 64 }
    requires waits { waits_in instance.old ≡ nothing → ⊥ }
    requires there { (l : PlainLeft) × HostsAt setting.now (code_in instance.old)
        (λ w. pausing (exports_of w.source) w.plan.area l (entry_of pause.entry) pause.import (answer_of pause.answer) (store_in instance.old) (waits_in instance.old)) }
    ensures comes { (w : Program) (l : PlainLeft) (supply : MailSupply) → IsSetting w setting.now → code_in instance.old ≡ w.source
        → PlaceFits w (pausing (exports_of w.source) w.plan.area l (entry_of pause.entry) pause.import (answer_of pause.answer) (store_in instance.old) (waits_in instance.old))
        → IfOk result (λ m. ComesFrom w (pausing (exports_of w.source) w.plan.area l (entry_of pause.entry) pause.import (answer_of pause.answer) (store_in instance.old)
        (waits_in instance.old)) steps.old.left (steps.new.used - steps.old.used) m supply supply l (store_in instance.new) (waits_in instance.new)) }
    ensures pauses { IfOk result PausesSo }
    ensures stops { IfOk result Stops }
    ensures code { code_in instance.new ≡ code_in instance.old }
    ensures sum { steps.new.left + steps.new.used ≡ steps.old.left + steps.old.used }
    ensures grows { steps.old.used ≤ steps.new.used }
{
    write_words(instance, setting.area);
    let func = setting.exports.start_unwind;
    let area = [Value::I32(setting.area.at)];
    match call_export(setting, instance, steps, Work::Unwinding, func, &area)? {
        Exported::Ended(end) => ended(setting.alloc, end),
        Exported::Returned(_) => give_zero(setting, instance, steps, pause),
    }
}

// The import's call is given a zero of its result, and the stack unwinds.
fn give_zero(
    setting: &Setting,
    instance: &mut Instance<'_>,
    steps: &mut Steps,
    pause: Pause,
) -> Result<Moved, AllocError>
    requires few { steps.old.left + steps.old.used < 2 ^ 64 }
    requires waits { waits_in instance.old ≡ nothing → ⊥ }
    requires there { HostsOver setting.now (code_in instance.old) (waits_in instance.old)
        (λ w l here under. busy (unwinding pause) (resumed (record { store = store_in instance.old; here = here; under = under }) (store_in instance.old) (zeros_of w.source pause.import)) l) }
    ensures comes { (w : Program) (l : PlainLeft) (supply : MailSupply) (here : Activation) (under : List Activation) → IsSetting w setting.now → code_in instance.old ≡ w.source
        → waits_in instance.old ≡ inside here under → HeldFits w.source (busy (unwinding pause)
        (resumed (record { store = store_in instance.old; here = here; under = under }) (store_in instance.old) (zeros_of w.source pause.import)) l)
        → IfOk result (λ m. Comes w (busy (unwinding pause) (resumed (record { store = store_in instance.old; here = here; under = under }) (store_in instance.old)
        (zeros_of w.source pause.import)) l) steps.old.left (steps.new.used - steps.old.used) m supply supply l (store_in instance.new) (waits_in instance.new)) }
    ensures pauses { IfOk result PausesSo }
    ensures stops { IfOk result Stops }
    ensures code { code_in instance.new ≡ code_in instance.old }
    ensures sum { steps.new.left + steps.new.used ≡ steps.old.left + steps.old.used }
    ensures grows { steps.old.used ≤ steps.new.used }
{
    let zero = zero_of_result(setting, pause.import);
    match instance.resume(zero, steps)? {
        Turn::Returned(_) => return test_unwound(setting, instance, steps, pause),
        Turn::Trapped(trap) => {
            let end = trap_end(setting, instance, Work::Unwinding, trap);
            return ended(setting.alloc, end);
        }
        Turn::Waiting(_) => return ended(setting.alloc, End::Broken(1)),
        Turn::StepsSpent => return ended(setting.alloc, End::StepsSpent(setting.steps)),
    }
}

// A zero of the result of an import, where it has one.
fn zero_of_result(setting: &Setting, import: u32) -> Option<Value>
    requires { import < length setting.now.imports.items }
    ensures { (w : Program) → IsSetting w setting.now → option_to_list result ≡ zeros_of w.source import }
{
    let import = &setting.imports[import as usize];
    zero_where(import.result)
}

// A zero of a type, where there is one.
fn zero_where(ty: Option<ValType>) -> Option<Value>
    ensures { option_to_list result ≡ map zero_of (option_to_list ty) }
{
    match ty {
        None => None,
        Some(ty) => Some(zero_of_type(ty)),
    }
}

fn zero_of_type(ty: ValType) -> Value
    ensures { result ≡ zero_of ty }
{
    match ty {
        ValType::I32 => Value::I32(0),
        ValType::I64 => Value::I64(0),
    }
}

// The entry has returned: the state must be 1.
fn test_unwound(
    setting: &Setting,
    instance: &mut Instance<'_>,
    steps: &mut Steps,
    pause: Pause,
) -> Result<Moved, AllocError>
    requires few { steps.old.left + steps.old.used < 2 ^ 64 }
    requires there { HostsIn setting.now (code_in instance.old) (λ w l. calling (unwinding pause) (store_in instance.old) (exports_of w.source).get_state [] test_unwound l) }
    ensures comes { (w : Program) (l : PlainLeft) (supply : MailSupply) → IsSetting w setting.now → code_in instance.old ≡ w.source
        → HeldFits w.source (calling (unwinding pause) (store_in instance.old) (exports_of w.source).get_state [] test_unwound l)
        → IfOk result (λ m. Comes w (calling (unwinding pause) (store_in instance.old) (exports_of w.source).get_state [] test_unwound l) steps.old.left
        (steps.new.used - steps.old.used) m supply supply l (store_in instance.new) (waits_in instance.new)) }
    ensures pauses { IfOk result PausesSo }
    ensures stops { IfOk result Stops }
    ensures code { code_in instance.new ≡ code_in instance.old }
    ensures sum { steps.new.left + steps.new.used ≡ steps.old.left + steps.old.used }
    ensures grows { steps.old.used ≤ steps.new.used }
{
    let func = setting.exports.get_state;
    match call_export(setting, instance, steps, Work::Unwinding, func, &[])? {
        Exported::Ended(end) => ended(setting.alloc, end),
        Exported::Returned(value) => {
            if is_state(1, value) {
                stop_unwind(setting, instance, steps, pause)
            } else {
                ended(setting.alloc, End::Broken(2))
            }
        }
    }
}

// `asyncify_stop_unwind` is called, and the program is paused.
fn stop_unwind(
    setting: &Setting,
    instance: &mut Instance<'_>,
    steps: &mut Steps,
    pause: Pause,
) -> Result<Moved, AllocError>
    requires few { steps.old.left + steps.old.used < 2 ^ 64 }
    requires there { HostsIn setting.now (code_in instance.old) (λ w l. calling (unwinding pause) (store_in instance.old) (exports_of w.source).stop_unwind [] pause_there l) }
    ensures comes { (w : Program) (l : PlainLeft) (supply : MailSupply) → IsSetting w setting.now → code_in instance.old ≡ w.source
        → HeldFits w.source (calling (unwinding pause) (store_in instance.old) (exports_of w.source).stop_unwind [] pause_there l)
        → IfOk result (λ m. Comes w (calling (unwinding pause) (store_in instance.old) (exports_of w.source).stop_unwind [] pause_there l) steps.old.left
        (steps.new.used - steps.old.used) m supply supply l (store_in instance.new) (waits_in instance.new)) }
    ensures pauses { IfOk result PausesSo }
    ensures stops { IfOk result Stops }
    ensures code { code_in instance.new ≡ code_in instance.old }
    ensures sum { steps.new.left + steps.new.used ≡ steps.old.left + steps.old.used }
    ensures grows { steps.old.used ≤ steps.new.used }
{
    let func = setting.exports.stop_unwind;
    match call_export(setting, instance, steps, Work::Unwinding, func, &[])? {
        Exported::Ended(end) => ended(setting.alloc, end),
        Exported::Returned(_) => {
            let used = used_of(instance, setting.area);
            let ticks = pause.answer.ticks;
            let event = Event::Paused { ticks, used };
            let stage = Stage::Paused(pause);
            Ok(Moved { event, stage })
        }
    }
}
