//! The law of the slim module. It is the contract of a function that does nothing.

ghost use Rattle.slim_laws.specs.SlimModuleLaws.{PlainPiecesAreSlim, SlimModulesFit};

/// The module with slim pieces is valid, and its code is slim beside the flat one. Pieces as flattening gives them are such pieces.
pub fn slim_modules_fit()
    ensures fit { SlimModulesFit }
    ensures plain { PlainPiecesAreSlim }
{}
