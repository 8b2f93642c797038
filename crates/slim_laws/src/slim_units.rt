//! Laws of slim units. Each is the contract of a function that does nothing.

ghost use Rattle.slim_laws.specs.SlimUnitLaws.{BodyIsSlim, PassingIsLess, PiecesCallAlike, UnitsAreAlike, UnitsAreSlim, UnitsAreSlimmer, UnitsStayTyped};

/// The code of slim units is slim, and so is the body that they make.
pub fn units_are_slim()
    ensures code { UnitsAreSlim }
    ensures body { BodyIsSlim }
{}

/// Slim units have the type that guarded code is made from.
pub fn units_stay_typed()
    ensures { UnitsStayTyped }
{}

/// Slim units have the same calls and numbers as those beside them, call nothing else, are no larger, and passing them costs no more.
pub fn units_are_alike()
    ensures alike { UnitsAreAlike }
    ensures calls { PiecesCallAlike }
    ensures slimmer { UnitsAreSlimmer }
    ensures passing { PassingIsLess }
{}
