//! Laws of worlds that are told again by what was kept of them.

ghost use Rattle.world_laws.specs.Kept.{DevicesKept, DevicesKeptBlocking, NoneTakenOut};
ghost use Rattle.world_laws.specs.Replays.{JournalsFixLines, UnboundFixLines};

/// Two runs of one world that end with the same journals and tell faults at the same places have the same lines.
pub fn journals_fix_lines()
    ensures { JournalsFixLines }
{}

/// A world of programs without bound imports has one run.
pub fn unbound_worlds_are_fixed()
    ensures { UnboundFixLines }
{}

/// The devices at the end of a run are those of its start, but for those that were taken out; each journal begins with what it held.
pub fn devices_are_kept()
    ensures protocol { DevicesKept }
    ensures blocking { DevicesKeptBlocking }
    ensures all { NoneTakenOut }
{}
