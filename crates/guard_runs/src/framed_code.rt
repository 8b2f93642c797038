//! Laws of guarded functions with frames. Each is the contract of a function that does nothing.

ghost use Rattle.guard_runs.specs.Joined.{BodyKeeps, SameCode};
ghost use Rattle.guard_runs.specs.Levels.{StoppedAreLevels};
ghost use Rattle.guard_runs.specs.Returned.{StacksReturn};

/// A guarded function that uses a layout is written as frames have it, and its body keeps the promise that frames ask for.
pub fn bodies_keep()
    ensures code { SameCode }
    ensures keeps { BodyKeeps }
{}

/// Stacks that wait at numbered calls of guarded functions are stacks that frames are written of, each call of which enters the
/// next function.
pub fn stopped_are_levels()
    ensures { StoppedAreLevels }
{}

/// Beside a written stack that came back stands a flat stack at the same calls, with what is kept as it was.
pub fn stacks_return()
    ensures { StacksReturn }
{}
