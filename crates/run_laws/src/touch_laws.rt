//! Laws of what is seen along a run: events and touches of the memory. Each is the contract of a function that does nothing.

ghost use Rattle.run_laws.specs.Seeing.{SeenByMoves, SeenEvents, SeenGrows, SeenNoFurther};

/// What is seen of a run goes with its moves, grows with the cost that they may take, and tells the events of the run in order.
pub fn touches_go_with_moves()
    ensures moves { SeenByMoves }
    ensures last { SeenNoFurther }
    ensures events { SeenEvents }
    ensures grows { SeenGrows }
{}
