//! Laws of types.

ghost use Rattle.slim_laws.specs.Typed.{BodiesAreTyped, TypesAreKept};

/// Slim code has the type of the code beside it.
pub fn types_are_kept()
    ensures code { TypesAreKept }
    ensures body { BodiesAreTyped }
{}
