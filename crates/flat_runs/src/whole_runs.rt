//! The law of whole runs, flat and original. It is the contract of a function that does nothing.

ghost use Rattle.flat_runs.specs.FlatBlocking.{FlatFollows, FlatReaches, FlatWeighs, LeanIsLess};

/// At each cost of the flat run the original's stands alike, at a cost that is at most the lean cost; and where the original's
/// stands the flat one stands alike, at 16 times the cost at most.
/// Flat bodies are at most 16 times as heavy.
pub fn runs_are_followed()
    ensures follows { FlatFollows }
    ensures reaches { FlatReaches }
    ensures less { LeanIsLess }
    ensures weighs { FlatWeighs }
{}
