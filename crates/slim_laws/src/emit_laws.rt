//! Laws of what is written. Each is the contract of a function that does nothing.

ghost use Rattle.slim_laws.specs.Emit.{EmitsSlim, SlimBesideItself};

/// What is emitted is slim.
pub fn emitted_is_slim()
    ensures { EmitsSlim }
{}

/// Code is slim beside itself.
pub fn code_is_slim_beside_itself()
    ensures { SlimBesideItself }
{}
