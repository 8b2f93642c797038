//! Mailboxes, by which programs wait for one another; alone, as they know of a program its number and nothing else.
//!
//! - A mailbox has a name, a queue of values and a queue of programs that wait, both first come first served.
//! - A value that is sent goes to the first program that waits there: that program is *settled* with it. Where none waits, the
//!   value is queued.
//! - A value that is received is the first of the queue, answered at once.
//!
//! Contracts see mailboxes as plain data (`Mail` of `specs/Mail.antt`), and say of each call all that it leaves. Always where a program
//! waits no value is queued, and each program waits once at most (`IsOrderly`).
//!
//! - `mailbox`, `places`, `mailboxes`: one, the places of names, and all of them with who is settled.
//! - `laws`: the mailbox at a place that was found is the one of the name.
#![tactic(auto)]

mod laws;
mod mailbox;
mod mailboxes;
mod places;

pub use laws::places_are_of_names;
pub use mailboxes::Mailboxes;
