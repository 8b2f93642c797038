//! Laws of a pause. Each is the contract of a function that does nothing.

ghost use Rattle.guard_runs.specs.Pause.{Answers, HaltsThere, Pauses, TrapsThere, ReachesThere};
ghost use Rattle.guard_runs.specs.RuntimeParts.{RuntimeStands};
ghost use Rattle.guard_runs.specs.UnseenMoves.{EachInstant};

/// At each instant within the moves of an unwinding or a rewinding a run has made no event, and its store is as before but for
/// the area and what stands above the original's globals.
pub fn moves_are_unseen()
    ensures { EachInstant }
{}

/// Where the stack fits in the area, the program is paused, with the stack suspended in the area; nothing else has changed.
pub fn stacks_pause()
    ensures { Pauses }
{}

/// Where it doesn't, the unwinding traps, with as much of the area in use as the frames that fit take; they stand there, and no
/// other byte has changed.
pub fn stacks_overrun()
    ensures { TrapsThere }
{}

/// Where a test stands behind some of the levels, or at once, the unwinding traps there, or at a frame before that doesn't fit.
pub fn stacks_halt()
    ensures halts { HaltsThere }
    ensures reach { ReachesThere }
{}

/// Behind a pause the stack comes back, with what is kept as it was, and the answer is given.
pub fn stacks_come_back()
    ensures { Answers }
{}

/// A module that has the runtime's parts behind those of another, which exports none of the five names, has the runtime's
/// functions where the host looks for them.
pub fn runtime_is_there()
    ensures { RuntimeStands }
{}
