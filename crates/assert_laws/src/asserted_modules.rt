//! Laws of the module that is emitted with asserts, for both policies. Each is the contract of a function that does nothing.

ghost use Rattle.assert_laws.specs.AssertedModules.{AssertedBehavesGiven, AssertedHasFewLocals, AssertedIsPrepared, AssertedIsShort, AssertedIsSpelled, AssertedIsValid, AssertedIsWellFormed, AssertedKeepsSizes, AssertedReadsFew, AssertedRewrites, AssertedRunsUnpaused};
ghost use Rattle.assert_laws.specs.EmittedWithAsserts.{FunctionsHaveAsserts};

/// Functions that are emitted with asserts one by one are those of a module that is.
pub fn functions_have_asserts()
    ensures { FunctionsHaveAsserts }
{}

/// What is emitted with asserts is valid.
pub fn asserted_is_valid()
    ensures { AssertedIsValid }
{}

/// Its numbers are in range where those of the original are.
pub fn asserted_is_well_formed()
    ensures { AssertedIsWellFormed }
{}

/// It is the original, rewritten with asserts: it behaves like it under every plan, whichever calls its activations stand at where it
/// pauses.
pub fn asserted_rewrites()
    ensures { AssertedRewrites }
{}

/// It does so too where the plan lets no import pause, whatever its area inside the memory.
pub fn asserted_behaves_given()
    ensures { AssertedBehavesGiven }
{}

/// Where nothing pauses it does what its original does, under any area.
pub fn asserted_runs_unpaused()
    ensures { AssertedRunsUnpaused }
{}

/// It keeps the size rule.
pub fn asserted_keeps_sizes()
    ensures { AssertedKeepsSizes }
{}

/// Its functions declare few locals, and its bytes are fewer than a `u64` numbers.
pub fn asserted_is_short()
    ensures locals { AssertedHasFewLocals }
    ensures bytes { AssertedIsShort }
{}

/// What is written of it, where that isn't long, spells its norm.
pub fn asserted_is_spelled()
    ensures { AssertedIsSpelled }
{}

/// Of a source module it is within the bounds of a prepared module.
pub fn asserted_is_prepared()
    ensures { AssertedIsPrepared }
{}

/// Each function reads the global of the state within its bound without asserts, and once more for each call without a number.
pub fn asserted_reads_few()
    ensures { AssertedReadsFew }
{}
