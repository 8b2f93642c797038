//! Soundness of types as laws: what fits a valid module goes on fitting it (standard, section 7.5). Each is the contract of a function
//! that does nothing.

ghost use Rattle.run_theory.specs.Fitting.{AnswersFit, CallsFit, EndsFit, HeightsWithin, OpeningsFit, StepsFit, StretchesFit};

/// From a configuration that fits a valid module there is a reduction: it goes on to one that fits again, or returns, traps
/// or asks. So none is stuck that calls and answers of the right types lead to (standard, section 7.5.6).
pub fn reductions_fit()
    ensures steps { StepsFit }
    ensures stretches { StretchesFit }
    ensures ends { EndsFit }
{}

/// Where calls and answers begin with values of their types, they begin with configurations that fit.
pub fn calls_fit()
    ensures calls { CallsFit }
    ensures answers { AnswersFit }
{}

/// An instance of a valid module fits, where its imported globals have values of their types (standard, section 4.5.4).
pub fn openings_fit()
    ensures { OpeningsFit }
{}

/// The operands and labels of an activation that fits are no more than the body of its function has at most.
pub fn heights_within()
    ensures { HeightsWithin }
{}
