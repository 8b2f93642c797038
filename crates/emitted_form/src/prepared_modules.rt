//! The law of written modules. It is the contract of a function that does nothing.

ghost use Rattle.emitted_form.specs.Prepared.{EmittedIsPrepared};

/// What is written of a source module is within the bounds of a prepared module.
pub fn emitted_modules_are_prepared()
    ensures { EmittedIsPrepared }
{}
