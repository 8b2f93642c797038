//! Laws of suspended stacks. Each is the contract of a function that does nothing.

ghost use Rattle.run_laws.specs.Lawful.{CodeStandsBehind, PausesAreLawful, StacksAreLawful};
ghost use Rattle.run_laws.specs.Standing.{CallsAtNumbers, PausesAtNumbers, HeededAtNumbers, PausesOfEntries, PausesTold, StacksChained};

/// At each call of an import the stack leads, call by call, from what the host called to the import, and has 4,096
/// activations at most. A pause is at a call of an import that the plan tells as listed, and suspends the stack of the entry
/// whose number is that of the entries that have returned.
pub fn stacks_are_chained()
    ensures stacks { StacksChained }
    ensures pauses { PausesTold }
    ensures entries { PausesOfEntries }
{}

/// Where `call_indirect` isn't ignored, each activation below a call of a listed import, and so each one that a pause
/// suspends, stands at a numbered call of a function that may pause.
pub fn activations_stand_at_numbers()
    ensures calls { CallsAtNumbers }
    ensures pauses { PausesAtNumbers }
    ensures heeded { HeededAtNumbers }
{}

/// Each activation of the stack at a call of an import stands at a call of its pruned body, with what stands behind that
/// call, and over operands of the types that the typing finds just before it. Its values are in range.
pub fn stacks_are_lawful()
    ensures stacks { StacksAreLawful }
    ensures code { CodeStandsBehind }
{}

/// What a pause suspends, where it finds each activation at a numbered call, is a lawful stack.
pub fn pauses_are_lawful()
    ensures { PausesAreLawful }
{}
