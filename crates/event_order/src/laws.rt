//! Laws of the next program of a world. Each is the contract of a function that does nothing.

ghost use Rattle.event_order.specs.Laws.{LeastIsNext, EndedIsOver};

/// The program with the least pair of due tick and number is the one that goes on in a world.
pub fn least_is_next()
    ensures { LeastIsNext }
{}

/// A world is over where all programs have ended.
pub fn none_is_over()
    ensures { EndedIsOver }
{}
