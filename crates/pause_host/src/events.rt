//! What comes next of a program, by the stage where it stands.

ghost use Rattle.std.specs.Prelude.{◌≡◌, ◌<◌, ◌≤◌, ◌+◌, ◌-◌, ◌^◌, IfOk, None, false, true};
ghost use Rattle.wa_model.specs.Protocol.{exports_of};
ghost use Rattle.world_model.specs.World.{Program};
ghost use Rattle.interp.specs.Host.{code_in, store_in, waits_in};
ghost use Rattle.pause_host.specs.Hosting.{HostsAt, MayAsk};
ghost use Rattle.pause_host.specs.Moves.{IsSetting, NextFrom, NextPauses, NextStops, PlaceFits};
ghost use Rattle.pause_host.specs.Views.{end_of, is_paused, is_stopping, left_of, place_in};

use crate::ends::ends;
use crate::rewinding::rewind;
use crate::running::{call_next, give, tell_answer};
use crate::stages::{Given, Left, Next, Setting, Stage};
use crate::unwinding::unwind;
use interp::{Instance, Steps};
use std::alloc::AllocError;

/// What comes next of a program with an instance.
pub fn next_event(
    setting: &Setting,
    instance: &mut Instance<'_>,
    left: &mut Left,
    steps: &mut Steps,
    stage: Stage,
) -> Result<Next, AllocError>
    requires few { steps.old.left + steps.old.used < 2 ^ 64 }
    requires there { HostsAt setting.now (code_in instance.old) (λ w. place_in (exports_of w.source) w.plan.area (left_of left.old) (store_in instance.old) (waits_in instance.old) stage) }
    ensures comes { (w : Program) → IsSetting w setting.now → code_in instance.old ≡ w.source
        → PlaceFits w (place_in (exports_of w.source) w.plan.area (left_of left.old) (store_in instance.old) (waits_in instance.old) stage) → end_of stage ≡ None
        → IfOk result (λ n. NextFrom w (place_in (exports_of w.source) w.plan.area (left_of left.old) (store_in instance.old) (waits_in instance.old) stage) steps.old.left
        (steps.new.used - steps.old.used) n (left_of left.new) (store_in instance.new) (waits_in instance.new)) }
    ensures asks { IfOk result (MayAsk setting.now (store_in instance.new)) }
    ensures pauses { IfOk result NextPauses }
    ensures stops { is_stopping stage ≡ true → is_paused stage ≡ false → IfOk result NextStops }
    ensures answers { left.new.answers ≡ left.old.answers }
    ensures code { code_in instance.new ≡ code_in instance.old }
    ensures sum { steps.new.left + steps.new.used ≡ steps.old.left + steps.old.used }
    ensures grows { steps.old.used ≤ steps.new.used }
{
    match stage {
        Stage::Free => call_next(setting, instance, left, steps),
        Stage::Answering { task, answer } => Ok(Next::Told(tell_answer(instance, task, answer))),
        Stage::Giving { task, value } => {
            let given = Given { task, value };
            give(setting, instance, left, steps, given)
        }
        Stage::Pausing(pause) => {
            let moved = unwind(setting, instance, steps, pause)?;
            Ok(Next::Told(moved))
        }
        Stage::Paused(pause) => {
            let moved = rewind(setting, instance, steps, pause)?;
            Ok(Next::Told(moved))
        }
        Stage::Ending(end) => ends(setting.alloc, end),
        Stage::Ended(end) => ends(setting.alloc, end),
    }
}
