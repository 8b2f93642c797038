//! Laws of what is emitted, for both policies. Each is the contract of a function that does nothing.

ghost use Rattle.emitted_form.specs.EmittedAs.{FunctionsAreEmitted};
ghost use Rattle.emitted_form.specs.PolicyLaws.{EmittedAsBehavesGiven, EmittedAsIsRewritten, EmittedAsIsValid, EmittedAsKeepsSizes, EmittedAsRewrites, EmittedDifferInCode, EmittedAsReadsFew, WrittenAsReadsFew};

/// Functions that are emitted one by one are those of an emitted module.
pub fn functions_are_emitted()
    ensures { FunctionsAreEmitted }
{}

/// What is emitted is valid.
pub fn emitted_is_valid()
    ensures { EmittedAsIsValid }
{}

/// It is the original, rewritten, in every part but its runs.
pub fn emitted_is_rewritten()
    ensures { EmittedAsIsRewritten }
{}

/// It is the original, rewritten: it behaves like it under every plan of pauses.
pub fn emitted_rewrites()
    ensures { EmittedAsRewrites }
{}

/// It behaves like it too where the plan lets no import pause, whatever its area inside the memory.
pub fn emitted_behaves_given()
    ensures { EmittedAsBehavesGiven }
{}

/// It keeps the size rule.
pub fn emitted_keeps_sizes()
    ensures { EmittedAsKeepsSizes }
{}

/// Modules that are emitted of one differ in code alone, by either policy.
pub fn emitted_differ_in_code()
    ensures { EmittedDifferInCode }
{}

/// A function that is written reads the global of the state few times, for its numbered calls and the constructs that hold one.
pub fn written_reads_few()
    ensures { WrittenAsReadsFew }
{}

/// So does each function of an emitted module that may pause; none else of the original's reads it.
pub fn emitted_reads_few()
    ensures { EmittedAsReadsFew }
{}
