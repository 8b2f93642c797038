//! What words ask for.

ghost use Rattle.asyncify_app.specs.Words.{TransformsAreSpelled};

/// The `transform` that words ask for, among all commands, is the one that they spell by themselves: clauses on the one are clauses on
/// the other.
pub fn transforms_are_spelled()
    ensures { TransformsAreSpelled }
{}
