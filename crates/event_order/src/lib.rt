//! The order of events among several programs that share a list of devices.
//!
//! It is that of the definition of a world (`world_model/specs/World.antt`), over what is known of the programs: when each is due, and
//! whether it has ended.
//!
//! - `next_turn`: the unfinished program with the least pair of due tick and number. That it is the one that goes on in a
//!   world is the law `least_is_next`; that all programs of a world have ended where there is none, `none_is_over`.
//! - `detach_before`: the devices that are taken out before an event, in order.
//! - `next_show`: the parts of its memory that are shown after a program's end, one after another, and `show_event`, such an
//!   event.
//!
//! None but `show_event` takes memory.
#![tactic(auto)]

mod detaches;
mod laws;
mod shows;
mod turns;

pub use detaches::detach_before;
pub use laws::{least_is_next, none_is_over};
pub use shows::{Show, next_show, show_event};
pub use turns::{Turn, next_turn};
