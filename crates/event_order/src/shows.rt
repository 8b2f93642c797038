//! The parts of a program's memory that are shown after its end, and their events.

ghost use Rattle.std.specs.Prelude.{◌≡◌, [], drop, option_map, IfOk, MatchOption};
ghost use Rattle.wa_model.specs.Outside.{shown};
ghost use Rattle.wa_model.specs.View.{event_of};
ghost use Rattle.event_order.specs.Looks.{looks_of, IsNextShow};

use std::alloc::{AllocError, Global};
use wa_model::Event;

/// A part of a program's memory that is shown after its end: the program's number, the first byte and how many.
#[derive(Clone, Copy)]
pub struct Show {
    pub program: u32,
    pub at: u32,
    pub len: u32,
}

/// The place of the first show of a program at a place or behind it; None where there is none.
pub fn next_show(shows: &[Show], from: usize, program: u32) -> Option<usize>
    ensures { MatchOption result (looks_of program (drop from shows.now) ≡ [])
        (λ place. IsNextShow program shows.now from place) }
{
    for place in from..shows.len() {
        let show = &shows[place];
        if show.program == program {
            return Some(place);
        }
    }
    None
}

/// The event of a show, with the bytes that are there.
pub fn show_event(alloc: Global, show: &Show, bytes: Option<&[u8]>) -> Result<Event, AllocError>
    ensures { IfOk result (λ event. event_of event
        ≡ shown show.now.at (option_map (λ bytes. bytes.now) bytes.entry)) }
{
    let bytes = match bytes {
        Some(bytes) => {
            let mut held = Vec::new(alloc);
            held.extend_from_slice(bytes)?;
            Some(held)
        }
        None => None,
    };
    Ok(Event::Shown { at: show.at, bytes })
}
