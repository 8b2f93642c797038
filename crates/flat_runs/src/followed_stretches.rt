//! Laws of reductions of flat code beside those of the original. Each is the contract of a function that does nothing.

ghost use Rattle.flat_runs.specs.Beside.{CallersAreAtCalls};
ghost use Rattle.flat_runs.specs.FollowedStretches.{AnswersGoOn, CallsBegin, EachStretch, StretchesGo};
ghost use Rattle.flat_runs.specs.Reducing.{EachReduction, QuietIsQuiet, SameReach};

/// Each reduction of the original is a few of the flat code, at 1 to 16 times its cost, in lean cost too at least at it: quiet
/// ones, the one that does what the original's does, and quiet ones again.
pub fn steps_are_followed()
    ensures each { EachReduction }
    ensures quiet { QuietIsQuiet }
    ensures same { SameReach }
{}

/// So are reductions in a row.
pub fn stretches_are_followed()
    ensures far { EachStretch }
    ensures go { StretchesGo }
{}

/// A call of the host begins on both sides.
pub fn calls_begin()
    ensures { CallsBegin }
{}

/// Behind an import's answer both sides go on.
pub fn answers_go_on()
    ensures { AnswersGoOn }
{}

/// Where the flat code waits at a call it has no operand but what the call took, and all operands just before stand in slots.
pub fn callers_are_at_calls()
    ensures { CallersAreAtCalls }
{}
