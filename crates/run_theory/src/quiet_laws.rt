//! Laws of modules of which nothing may pause. Each is the contract of a function that does nothing.

ghost use Rattle.run_theory.specs.Quiet.{NoneTold, QuietBehave, RuntimeIsValid};

/// A valid module without a reserved name is valid with the runtime's parts behind its own.
pub fn runtime_is_valid()
    ensures { RuntimeIsValid }
{}

/// A module of which nothing may pause behaves as before with the runtime's parts behind its own.
pub fn quiet_modules_behave()
    ensures { QuietBehave }
{}

/// Nothing of a module may pause where no function is told as one that may.
pub fn none_told_is_quiet()
    ensures { NoneTold }
{}
