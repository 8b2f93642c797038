//! The law of the emitted module: the contract of a function that does nothing.

ghost use Rattle.emitted_form.specs.EmittedAll.{AsyncifiedIsRewritten};

/// The emitted module of the policy that saves all is its original, rewritten: it behaves like it under every plan of pauses.
pub fn emitted_module_behaves()
    ensures { AsyncifiedIsRewritten }
{}
