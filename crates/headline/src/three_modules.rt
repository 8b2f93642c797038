//! Laws of the three modules. Each is the contract of a function that does nothing.

ghost use Rattle.headline.specs.ThreeModules.{PartsFit, StoresStayTogether, TrapsKeepStores};

/// A reduction that traps leaves the store as it was.
pub fn traps_keep_stores()
    ensures { TrapsKeepStores }
{}

/// Stores of the flat and the written module that belong together are the same outside the area, and stay together under pokes
/// that pass and behind a pause.
pub fn stores_stay_together()
    ensures { StoresStayTogether }
{}

/// A written module that has the original's parts, the runtime's behind them, and functions paired with flat ones meets what runs
/// are compared by.
pub fn parts_fit()
    ensures { PartsFit }
{}
