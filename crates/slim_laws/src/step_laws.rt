//! Laws of normal running. Each is the contract of a function that does nothing.

ghost use Rattle.slim_laws.specs.Beside.{AnswersGoOn, CallsBegin, EachStep, EachStretch, WaitingAgrees, WaitsWithAny};

/// The slim module makes each reduction of the flat one, and reductions in a row, at no greater cost and no less than the
/// lean cost.
pub fn running_is_followed()
    ensures step { EachStep }
    ensures stretch { EachStretch }
{}

/// A call of the host begins on both sides.
pub fn calls_begin()
    ensures { CallsBegin }
{}

/// Behind an import's answer both sides go on.
pub fn answers_go_on()
    ensures { AnswersGoOn }
{}

/// What waits has the same operands on both sides, and the same locals where they are fixed; and it goes on with any locals.
pub fn stacks_wait()
    ensures agreeing { WaitingAgrees }
    ensures any { WaitsWithAny }
{}
