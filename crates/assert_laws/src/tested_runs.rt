//! Laws of normal running. Each is the contract of a function that does nothing.

ghost use Rattle.assert_laws.specs.Beside.{AnswersGoOn, AssertedIsTested, CallsBegin, EachStep, ReachedIsTested, WaitingStands};

/// Code stands beside its code with asserts.
pub fn asserted_code_is_tested()
    ensures asserted { AssertedIsTested }
    ensures reached { ReachedIsTested }
{}

/// Each reduction of the plain side is one of the side with tests, with five quiet ones behind a return.
pub fn steps_are_followed()
    ensures { EachStep }
{}

/// So does an import's answer go on.
pub fn answers_go_on()
    ensures { AnswersGoOn }
{}

/// A call of the host begins on both sides.
pub fn calls_begin()
    ensures { CallsBegin }
{}

/// What waits at a call that is tested has the test as its code.
pub fn waiting_stands_at_tests()
    ensures { WaitingStands }
{}
