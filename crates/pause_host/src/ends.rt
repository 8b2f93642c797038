//! The end of a program, told as an event.

ghost use Rattle.std.specs.Prelude.{◌≡◌, IfOk};
ghost use Rattle.wa_model.specs.Store.{Store};
ghost use Rattle.pause_host.specs.declared.stages.Setting.{Setting};
ghost use Rattle.pause_host.specs.Hosting.{MayAsk};
ghost use Rattle.pause_host.specs.Moves.{NextPauses, NextStops, PausesSo, Stops, TellsEnd};

use crate::stages::{Moved, Next, Stage};
use std::alloc::{AllocError, Global};
use wa_model::{End, Event};
use wa_types::Name;

/// The end is told.
pub fn ended(alloc: Global, end: End) -> Result<Moved, AllocError>
    ensures event { IfOk result (λ m. m.event ≡ Event.Ended end) }
    ensures stage { IfOk result (λ m. m.stage ≡ Stage.Ended end) }
    ensures pauses { IfOk result PausesSo }
    ensures stops { IfOk result Stops }
{
    let told = copy_end(alloc, &end)?;
    Ok(Moved {
        event: Event::Ended(told),
        stage: Stage::Ended(end),
    })
}

/// The end is what comes next.
pub fn ends(alloc: Global, end: End) -> Result<Next, AllocError>
    ensures end { IfOk result (TellsEnd end) }
    ensures pauses { IfOk result NextPauses }
    ensures stops { IfOk result NextStops }
    ensures asks { (x : Setting) (s : Store) → IfOk result (MayAsk x s) }
{
    let moved = ended(alloc, end)?;
    Ok(Next::Told(moved))
}

/// The same end.
pub fn copy_end(alloc: Global, end: &End) -> Result<End, AllocError>
    ensures { IfOk result (λ copy. copy ≡ end.now) }
{
    let copy = match end {
        End::OtherImport { called, named } => {
            let named = Name::new(alloc, named.as_str())?;
            let called = *called;
            End::OtherImport { called, named }
        }
        End::Done => End::Done,
        End::Trapped(trap) => End::Trapped(*trap),
        End::UnwindTrap { trap, used, len } => {
            let (trap, used, len) = (*trap, *used, *len);
            End::UnwindTrap { trap, used, len }
        }
        End::RewindTrap(trap) => End::RewindTrap(*trap),
        End::ElementsOut(number) => End::ElementsOut(*number),
        End::BytesOut(number) => End::BytesOut(*number),
        End::HostLimit { entries, found } => {
            let (entries, found) = (*entries, *found);
            End::HostLimit { entries, found }
        }
        End::NoAnswer(import) => End::NoAnswer(*import),
        End::BadAnswer { import, value } => {
            let (import, value) = (*import, *value);
            End::BadAnswer { import, value }
        }
        End::BadPoke { at, len } => {
            let (at, len) = (*at, *len);
            End::BadPoke { at, len }
        }
        End::UnlistedPause(import) => End::UnlistedPause(*import),
        End::PauseInStart(import) => End::PauseInStart(*import),
        End::DeviceFault(import) => End::DeviceFault(*import),
        End::NoDevice(import) => End::NoDevice(*import),
        End::Stalled(import) => End::Stalled(*import),
        End::StepsSpent(steps) => End::StepsSpent(*steps),
        End::Broken(rule) => End::Broken(*rule),
    };
    Ok(copy)
}
