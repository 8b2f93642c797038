//! Strands of a program: where each stands, and what an event leads to.

ghost use Rattle.std.specs.Prelude.{◌≡◌, ◌<◌, ◌^◌, ℕ, not};
ghost use Rattle.wa_model.specs.View.{event_of};
ghost use Rattle.strand_laws.specs.Woven.{ends_strand};
ghost use Rattle.strand_host.specs.StrandPrograms.{end_leads_to, leads_to};

use pause_host::{Left, Stage};
use wa_model::{Area, End, Event};

/// An event of a program's strand.
#[derive(Drop)]
pub struct StrandEvent {
    pub strand: u32,
    pub event: Event,
}

/// A strand that hasn't ended: its area, what is left of it, and where it stands.
#[derive(Drop)]
pub struct Strand {
    pub area: Area,
    pub left: Left,
    pub stage: Stage,
}

/// A strand whose turn goes on: its number, and whether it is in the start function.
#[derive(Drop)]
pub struct Going {
    pub number: u32,
    pub strand: Strand,
    pub starts: bool,
}

/// What an event of a strand leads to: its turn goes on, it pauses for so many ticks, it ends alone, or the program ends.
#[derive(Clone, Copy)]
pub enum Then {
    GoesOn,
    Pauses(u32),
    EndsAlone,
    EndsAll,
}

/// What an event leads to, of a strand that is in the start function or not: the end by the last entry is the strand's alone, and so is that by a
/// trap, but in the start function.
pub fn leads_to(event: &Event, starts: bool) -> Then
    ensures leads { result ≡ leads_to starts (event_of event.now) }
    ensures short { (ticks : ℕ) → result ≡ Then.Pauses ticks → ticks < 2 ^ 32 }
{
    match event {
        Event::Paused { ticks, used: _ } => Then::Pauses(*ticks),
        Event::Ended(end) => then_ended(end, starts),
        _ => Then::GoesOn,
    }
}

fn then_ended(end: &End, starts: bool) -> Then
    ensures { result ≡ end_leads_to (ends_strand starts end.now) }
{
    match end {
        End::Done => Then::EndsAlone,
        End::Trapped(_) => then_trapped(starts),
        _ => Then::EndsAll,
    }
}

fn then_trapped(starts: bool) -> Then
    ensures { result ≡ end_leads_to (not starts) }
{
    if starts {
        return Then::EndsAll;
    }
    Then::EndsAlone
}
