//! Laws of modules with more parts behind their own. Each is the contract of a function that does nothing.

ghost use Rattle.run_theory.specs.Growth.{BaseIsValid, CallsAreNamed, EndsStay, InstancesStay, RuntimeStepsStay, StepsStay, StretchesStay};

/// A valid module with more parts behind its own makes each of its own reductions as before, at the same cost.
pub fn reductions_stay()
    ensures steps { StepsStay }
    ensures stretches { StretchesStay }
    ensures ends { EndsStay }
    ensures runtime { RuntimeStepsStay }
{}

/// A call of a function of a valid module begins where `reductions_stay` speaks of it.
pub fn calls_are_named()
    ensures { CallsAreNamed }
{}

/// A valid module is valid with the memory that it is compared with.
pub fn base_is_valid()
    ensures { BaseIsValid }
{}

/// A valid module with more parts behind its own opens as before, with more globals.
pub fn instances_stay()
    ensures { InstancesStay }
{}
