//! A pause rewound: from `asyncify_start_rewind` over the entry's call to the suspended import's answer.

ghost use Rattle.std.specs.Prelude.{◌≡◌, ◌<◌, ◌≤◌, ◌+◌, ◌-◌, ◌^◌, List, [], ◌∷◌, IfOk, map, slice_get};
ghost use Rattle.std.specs.Option.{option_to_list};
ghost use Rattle.wa_types.specs.declared.values.Value.TheVariants as V;
ghost use Rattle.wa_model.specs.Configuration.{Activation, Configuration};
ghost use Rattle.wa_model.specs.Store.{Store};
ghost use Rattle.wa_model.specs.Blocking.{Left as PlainLeft};
ghost use Rattle.wa_model.specs.Protocol.{call_again, calling, entering, exports_of, give_answer, test_rewound};
ghost use Rattle.world_model.specs.World.{Program};
ghost use Rattle.run_laws.specs.FittingStates.{HeldFits};
ghost use Rattle.interp.specs.Host.{code_in, store_in, waits_in};
ghost use Rattle.interp.specs.Instance.{inside};
ghost use Rattle.pause_host.specs.Hosting.{HostsIn, HostsOver};
ghost use Rattle.pause_host.specs.Mailing.{MailSupply};
ghost use Rattle.pause_host.specs.Moves.{Comes, IsSetting, PausesSo};
ghost use Rattle.pause_host.specs.Views.{entry_of, rewinding};

use crate::ends::ended;
use crate::exports::{Exported, Work, call_export, is_state};
use crate::memory::write_pokes;
use crate::stages::{Moved, Pause, Setting, Task, stage_told};
use interp::{Instance, Steps, Turn};
use std::alloc::AllocError;
use wa_model::{End, Event};
use wa_types::Value;

/// Rewinds the stack of a pause: `asyncify_start_rewind` is called.
pub fn rewind(
    setting: &Setting,
    instance: &mut Instance<'_>,
    steps: &mut Steps,
    pause: Pause,
) -> Result<Moved, AllocError>
    requires few { steps.old.left + steps.old.used < 2 ^ 64 }
    requires there { HostsIn setting.now (code_in instance.old)
        (λ w l. calling (rewinding pause (store_in instance.old)) (store_in instance.old) (exports_of w.source).start_rewind (V.I32 w.plan.area.at ∷ []) call_again l) }
    ensures comes { (w : Program) (l : PlainLeft) (supply : MailSupply) → IsSetting w setting.now → code_in instance.old ≡ w.source
        → HeldFits w.source (calling (rewinding pause (store_in instance.old)) (store_in instance.old) (exports_of w.source).start_rewind (V.I32 w.plan.area.at ∷ []) call_again l)
        → IfOk result (λ m. Comes w (calling (rewinding pause (store_in instance.old)) (store_in instance.old) (exports_of w.source).start_rewind (V.I32 w.plan.area.at ∷ []) call_again l)
        steps.old.left (steps.new.used - steps.old.used) m supply supply l (store_in instance.new) (waits_in instance.new)) }
    ensures pauses { IfOk result PausesSo }
    ensures code { code_in instance.new ≡ code_in instance.old }
    ensures sum { steps.new.left + steps.new.used ≡ steps.old.left + steps.old.used }
    ensures grows { steps.old.used ≤ steps.new.used }
{
    let func = setting.exports.start_rewind;
    let area = [Value::I32(setting.area.at)];
    match call_export(setting, instance, steps, Work::Rewinding, func, &area)? {
        Exported::Ended(end) => ended(setting.alloc, end),
        Exported::Returned(_) => call_again(setting, instance, steps, pause),
    }
}

// The entry is called again: the first import that it calls must be the suspended one.
fn call_again(
    setting: &Setting,
    instance: &mut Instance<'_>,
    steps: &mut Steps,
    pause: Pause,
) -> Result<Moved, AllocError>
    requires few { steps.old.left + steps.old.used < 2 ^ 64 }
    requires there { HostsIn setting.now (code_in instance.old) (λ w l. entering (rewinding pause (store_in instance.old)) (entry_of pause.entry) (store_in instance.old) l) }
    ensures comes { (w : Program) (l : PlainLeft) (supply : MailSupply) (since : Store) → IsSetting w setting.now → code_in instance.old ≡ w.source
        → HeldFits w.source (entering (rewinding pause since) (entry_of pause.entry) (store_in instance.old) l)
        → IfOk result (λ m. Comes w (entering (rewinding pause since) (entry_of pause.entry) (store_in instance.old) l) steps.old.left (steps.new.used - steps.old.used) m supply supply l
        (store_in instance.new) (waits_in instance.new)) }
    ensures pauses { IfOk result PausesSo }
    ensures code { code_in instance.new ≡ code_in instance.old }
    ensures sum { steps.new.left + steps.new.used ≡ steps.old.left + steps.old.used }
    ensures grows { steps.old.used ≤ steps.new.used }
{
    match instance.begin(pause.entry.func, &pause.entry.args, steps)? {
        Turn::Returned(_) => return ended(setting.alloc, End::Broken(5)),
        Turn::Trapped(trap) => return ended(setting.alloc, End::RewindTrap(trap)),
        Turn::Waiting(call) => {
            if call.import == pause.import {
                return test_rewound(setting, instance, steps, pause);
            }
            return ended(setting.alloc, End::Broken(3));
        }
        Turn::StepsSpent => return ended(setting.alloc, End::StepsSpent(setting.steps)),
    }
}

// At the suspended import the state must be 2.
fn test_rewound(
    setting: &Setting,
    instance: &mut Instance<'_>,
    steps: &mut Steps,
    pause: Pause,
) -> Result<Moved, AllocError>
    requires few { steps.old.left + steps.old.used < 2 ^ 64 }
    requires there { HostsOver setting.now (code_in instance.old) (waits_in instance.old) (λ w l here under. calling (rewinding pause (store_in instance.old)) (store_in instance.old)
        (exports_of w.source).get_state [] (test_rewound (record { store = store_in instance.old; here = here; under = under })) l) }
    ensures comes { (w : Program) (l : PlainLeft) (supply : MailSupply) (since at : Store) (here : Activation) (under : List Activation) → IsSetting w setting.now
        → code_in instance.old ≡ w.source → waits_in instance.old ≡ inside here under → HeldFits w.source
        (calling (rewinding pause since) (store_in instance.old) (exports_of w.source).get_state [] (test_rewound (record { store = at; here = here; under = under })) l)
        → IfOk result (λ m. Comes w (calling (rewinding pause since) (store_in instance.old) (exports_of w.source).get_state []
        (test_rewound (record { store = at; here = here; under = under })) l) steps.old.left (steps.new.used - steps.old.used) m supply supply l (store_in instance.new)
        (waits_in instance.new)) }
    ensures pauses { IfOk result PausesSo }
    ensures code { code_in instance.new ≡ code_in instance.old }
    ensures sum { steps.new.left + steps.new.used ≡ steps.old.left + steps.old.used }
    ensures grows { steps.old.used ≤ steps.new.used }
{
    let func = setting.exports.get_state;
    match call_export(setting, instance, steps, Work::Rewinding, func, &[])? {
        Exported::Ended(end) => ended(setting.alloc, end),
        Exported::Returned(value) => {
            if is_state(2, value) {
                stop_rewind(setting, instance, steps, pause)
            } else {
                ended(setting.alloc, End::Broken(4))
            }
        }
    }
}

// `asyncify_stop_rewind` is called, and the answer is told, a trap too, with what it writes into the memory.
fn stop_rewind(
    setting: &Setting,
    instance: &mut Instance<'_>,
    steps: &mut Steps,
    pause: Pause,
) -> Result<Moved, AllocError>
    requires few { steps.old.left + steps.old.used < 2 ^ 64 }
    requires there { HostsOver setting.now (code_in instance.old) (waits_in instance.old) (λ w l here under. calling (rewinding pause (store_in instance.old)) (store_in instance.old)
        (exports_of w.source).stop_rewind [] (give_answer (record { store = store_in instance.old; here = here; under = under })) l) }
    ensures comes { (w : Program) (l : PlainLeft) (supply : MailSupply) (since at : Store) (here : Activation) (under : List Activation) → IsSetting w setting.now
        → code_in instance.old ≡ w.source → waits_in instance.old ≡ inside here under → HeldFits w.source
        (calling (rewinding pause since) (store_in instance.old) (exports_of w.source).stop_rewind [] (give_answer (record { store = at; here = here; under = under })) l)
        → IfOk result (λ m. Comes w (calling (rewinding pause since) (store_in instance.old) (exports_of w.source).stop_rewind []
        (give_answer (record { store = at; here = here; under = under })) l) steps.old.left (steps.new.used - steps.old.used) m supply supply l (store_in instance.new)
        (waits_in instance.new)) }
    ensures pauses { IfOk result PausesSo }
    ensures code { code_in instance.new ≡ code_in instance.old }
    ensures sum { steps.new.left + steps.new.used ≡ steps.old.left + steps.old.used }
    ensures grows { steps.old.used ≤ steps.new.used }
{
    let func = setting.exports.stop_rewind;
    match call_export(setting, instance, steps, Work::Rewinding, func, &[])? {
        Exported::Ended(end) => ended(setting.alloc, end),
        Exported::Returned(_) => {
            write_pokes(instance, &pause.answer.pokes);
            let said = pause.answer.said;
            let task = Task::Entry(pause.entry);
            let stage = stage_told(task, said);
            let event = Event::Answered(said);
            Ok(Moved { event, stage })
        }
    }
}
