//! Laws of which functions may pause. Each is the contract of a function that does nothing.

ghost use Rattle.slot_laws.specs.PausingFunctions.{MayPauseIsClosed, MayPauseIsLeast, OneListTells, SomeListTells};

/// The functions that may pause are a closed set, which every closed set contains.
pub fn functions_that_may_pause_are_least()
    ensures closed { MayPauseIsClosed }
    ensures least { MayPauseIsLeast }
{}

/// There is one list that tells the functions that may pause, and only one.
pub fn one_list_tells()
    ensures some { SomeListTells }
    ensures one { OneListTells }
{}
