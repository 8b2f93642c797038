//! Laws of norms. Each is the contract of a function that does nothing.

ghost use Rattle.norm_laws.specs.Norms.{BareBlocking, BareProtocol, BareSteps, NormBlocking, NormIsRewritten, NormIsValid, NormProtocol};

/// How a module's locals are cut into runs, and its custom sections, change no run.
pub fn bare_runs_are_the_same()
    ensures steps { BareSteps }
    ensures blocking { BareBlocking }
    ensures protocol { BareProtocol }
{}

/// A module's norm makes the same runs.
pub fn norm_runs_are_the_same()
    ensures blocking { NormBlocking }
    ensures protocol { NormProtocol }
{}

/// The norm of a valid module is valid.
pub fn norm_is_valid()
    ensures { NormIsValid }
{}

/// The norm of a rewritten module is a rewritten module: what its bytes spell is one.
pub fn norm_is_rewritten()
    ensures { NormIsRewritten }
{}
