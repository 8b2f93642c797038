//! What the definitions make of a module rewritten by hand. Each is the contract of a function that does nothing.

ghost use Rattle.run_laws.specs.RewrittenByHand.{DummyStored, FramesCutNumbers, OperandLost, RaisedEarly, RightIsExpected, WrittenBehind};

/// The right rewriting makes the expected events, with an area that the frame fits and with one that it doesn't.
pub fn rewritten_by_hand_as_expected()
    ensures { RightIsExpected }
{}

/// Wrong ones return another value, trap with more bytes in use, write behind the area, or leave another image.
pub fn wrong_rewritings_are_told_apart()
    ensures operand { OperandLost }
    ensures behind { WrittenBehind }
    ensures early { RaisedEarly }
    ensures dummy { DummyStored }
{}

/// A frame cuts a number that is none of its type: so the headline speaks of well-formed modules.
pub fn frames_cut_numbers()
    ensures { FramesCutNumbers }
{}
