//! Laws of programs that stall.

ghost use Rattle.mail_laws.specs.Stalling.{BlockingWorldsStallLast, StallsLast, WorldsStallLast};

/// A line tells `Stalled` exactly where no program is ready, and then of the first that waits: an event of any actors whose turn tells none,
/// and each event of a protocol world and of a blocking world.
pub fn stalls_come_last()
    ensures event { StallsLast }
    ensures world { WorldsStallLast }
    ensures blocking { BlockingWorldsStallLast }
{}
