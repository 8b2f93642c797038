//! The law of flat functions. It is the contract of a function that does nothing.

ghost use Rattle.flat_laws.specs.FlatMeets.{CallsStay, FlatMeets, LocalsCounted};

/// A flat function of a valid module can be rewritten, and its calls are those of its pruned body.
pub fn flat_functions_fit()
    ensures meets { FlatMeets }
    ensures calls { CallsStay }
    ensures counted { LocalsCounted }
{}
