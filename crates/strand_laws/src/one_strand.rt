//! One strand alone. Each is the contract of a function that does nothing.

ghost use Rattle.strand_laws.specs.OneStrand.{OneStrandIsExpected, OneStrandRuns};

/// Under the protocol a program with one strand makes the notes of its plan's run without strands, at the same costs and over the same
/// stores, and stands where that does.
pub fn one_strand_runs_as_its_plan()
    ensures { OneStrandRuns }
{}

/// With blocking imports it makes the notes that are expected of its plan's run, its pauses among them, at the same costs.
pub fn one_strand_is_expected()
    ensures { OneStrandIsExpected }
{}
