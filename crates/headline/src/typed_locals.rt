//! Laws of the links. Each is the contract of a function that does nothing.

ghost use Rattle.headline.specs.TypedLocals.{LocalsStayTyped};

/// Where a run under the protocol stands at a running program, each activation's locals have their types and are in range.
pub fn locals_stay_typed()
    ensures { LocalsStayTyped }
{}
