//! What an event leads to: when its program is due, and where the host then stands.

ghost use Rattle.std.specs.Prelude.{◌≡◌, ◌≤◌, ◌<◌, ◌+◌, ◌^◌, ℕ, Some};
ghost use Rattle.wa_model.specs.View.{event_of};
ghost use Rattle.many_host.specs.Standing.{due_behind, most_ticks, stage_behind};

use crate::turn_taking::Stage;
use event_order::Turn;
use wa_model::Event;

/// When the program of a turn is due behind an event, and where the host then stands.
#[derive(Clone, Copy)]
pub(crate) struct Settled {
    pub due: Option<u64>,
    pub stage: Stage,
}

/// What an event of a turn leads to.
pub(crate) fn settle(turn: Turn, event: &Event) -> Settled
    requires { turn.due + most_ticks < 2 ^ 64 }
    ensures due { result.due ≡ due_behind turn.due (event_of event.now) }
    ensures later { (due : ℕ) → result.due ≡ Some due → due ≤ turn.due + most_ticks }
    ensures stage { result.stage ≡ stage_behind turn (event_of event.now) }
{
    match event {
        Event::Paused { ticks, .. } => Settled {
            due: Some(turn.due + u64::from(*ticks)),
            stage: Stage::Between,
        },
        Event::Ended(_) => Settled {
            due: None,
            stage: Stage::Showing { turn, from: 0 },
        },
        Event::Called(_) => same_turn(turn),
        Event::Answered(_) => same_turn(turn),
        Event::Parked { .. } => same_turn(turn),
        Event::Returned { .. } => same_turn(turn),
        Event::Shown { .. } => same_turn(turn),
    }
}

// The turn goes on.
fn same_turn(turn: Turn) -> Settled
    ensures due { result.due ≡ Some turn.due }
    ensures stage { result.stage ≡ Stage.Telling turn }
{
    Settled {
        due: Some(turn.due),
        stage: Stage::Telling(turn),
    }
}
