//! Laws of slots and result locals. Each is the contract of a function that does nothing.

ghost use Rattle.slot_laws.specs.SlotBounds.{CallsAreAtPoints, CountFits, OperandsAreSaved, OperandsAreWanted, ResultsArePairs, ResultsAscend, ResultsStandOnce, SavedRise, SlotsAreFew};
ghost use Rattle.slot_laws.specs.SlotBounds.{SlotsAscend, SlotsStandOnce};
ghost use Rattle.slot_laws.specs.TypingWalks.{TypingStandsAtPoints};
ghost use Rattle.slot_laws.specs.WalkPoints.{WalksStandAtPoints};

/// Slots and result locals stand in order, by number and i32 before i64, each pair once.
pub fn slots_stand_in_order()
    ensures slots { SlotsAscend }
    ensures slots_once { SlotsStandOnce }
    ensures results { ResultsAscend }
    ensures results_once { ResultsStandOnce }
{}

/// The result locals of a function are the depths and types of the results of its blocks and ifs, and its own result's.
pub fn results_are_pairs()
    ensures { ResultsArePairs }
{}

/// A function has no more slots and result locals than its pruned body has instructions, and one. So a u32 numbers the locals
/// of a rewritten function.
pub fn slots_are_few()
    ensures few { SlotsAreFew }
    ensures count { CountFits }
{}

/// The operands just before a call, by its place, are those of a point of the body.
pub fn calls_are_at_points()
    ensures { CallsAreAtPoints }
{}

/// A walk over code that goes as the typing of its operands goes stands at points of the code. `Typing` of `wasm_validate` is
/// such a walk, so what its `types` answers are the operands of a point.
pub fn walks_stand_at_points()
    ensures points { WalksStandAtPoints }
    ensures typing { TypingStandsAtPoints }
{}

/// What a frame saves stands in the order of the locals. Under each policy an operand that stands at a call has exactly one
/// place there, and what the frame wants at this place is the operand.
pub fn operands_are_saved_once()
    ensures order { SavedRise }
    ensures operands { OperandsAreSaved }
    ensures wanted { OperandsAreWanted }
{}
