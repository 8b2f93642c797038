//! The law. It is the contract of a function that does nothing. That what flattening owes of runs is owed of the module with asserts
//! (`AssertsAreBeside`) speaks of relations, so it is a lemma alone (`proofs/AssertLinks.antt`).

ghost use Rattle.assert_laws.specs.Links.{NumbersCarryOver, StretchesAreFollowed, TestIsMet};

/// Stretches that leave the store are stretches of the module with asserts.
pub fn stretches_are_followed()
    ensures { StretchesAreFollowed }
{}

/// Where a written stack stops inside, the activation there begins with the test; and who stands at numbered calls is told as without
/// asserts.
pub fn tests_are_met()
    ensures met { TestIsMet }
    ensures numbers { NumbersCarryOver }
{}
