//! Laws of stretches that keep the original's store. Each is the contract of a function that does nothing.

ghost use Rattle.run_laws.specs.Stretches.{CalmIsCalm, KeptAside, KeptBlocking, KeptWhileBusy, SilentIsKept, SilentStoresStay};

/// Along reductions that write nothing of the original's store, a run makes no event and shows the old store at each cost.
pub fn stretches_are_kept()
    ensures busy { KeptWhileBusy }
    ensures aside { KeptAside }
    ensures blocking { KeptBlocking }
{}

/// Reductions that are no call, load, store, copy, fill, change of a global or growth are such reductions, and leave the store as it is.
pub fn silent_reductions_are_kept()
    ensures kept { SilentIsKept }
    ensures stores { SilentStoresStay }
{}

/// The test of a reduction that stays off the area says what a run that doesn't touch it does.
pub fn calm_stays_off()
    ensures { CalmIsCalm }
{}
