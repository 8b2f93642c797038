//! What worlds are, as definitions: several programs on one thread, with the devices that they share, told line by line.
//!
//! `World` is over the machines of `wa_model`. Each program has a story, which it makes turn by turn; the next turn is that of the least
//! due tick, and of the least number among those. In the protocol world a story is what a prepared module does under a host's protocol, in
//! the blocking world what its original does. `Plays` is one event, `Events` are several in a row, `ProtocolWorld` and `BlockingWorld` whole runs.
#![tactic(auto)]
