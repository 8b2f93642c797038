//! Laws of functions in pieces and units.

ghost use Rattle.slim_laws.specs.Parts.{BodiesAreSlim, PiecesAreSlim};

/// Slim pieces with the same units make slim code, and a slim body.
pub fn pieces_are_slim()
    ensures code { PiecesAreSlim }
    ensures body { BodiesAreSlim }
{}
