//! The law of the numbers: a function that does nothing has it as its contract.

ghost use Rattle.flow_rewrite.specs.Numbering.{FlatNumbers};

/// Where the calls of a flat function are those of a function's pruned body, in order of code, the places of its
/// numbered calls are that function's.
pub fn flat_numbers()
    ensures { FlatNumbers }
{}
