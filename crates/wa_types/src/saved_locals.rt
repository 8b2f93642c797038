//! Laws of slots and of live locals, as the contract of a function that does nothing.

ghost use Rattle.wa_types.specs.SavedLocals.{LiveIsPath, OneEachCall, SlotsArePairs};

/// The laws of what frames hold: the slots of a typed body are the heights and types of the operands at its points; the locals that
/// count as live behind a call are those that some path reads before it writes them; and each list by the places of a function's
/// calls has one element for each call.
pub fn slot_and_live_laws()
    ensures slots { SlotsArePairs }
    ensures live { LiveIsPath }
    ensures lists { OneEachCall }
{}
