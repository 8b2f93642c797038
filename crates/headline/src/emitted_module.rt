//! Laws of the emitted module. Each is the contract of a function that does nothing.

ghost use Rattle.headline.specs.EmittedLaws.{EmittedBehaves, StayingBehave};

/// For the policy that saves all, a valid emitted module behaves like its original, whatever pauses.
pub fn emitted_behave()
    ensures { EmittedBehaves }
{}

/// A module with the runtime's parts whose functions all stay behaves like its original, where no pause finds a call without a number.
pub fn staying_behave()
    ensures { StayingBehave }
{}
