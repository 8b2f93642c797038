//! Laws of the locals that flat code accesses. Each is the contract of a function that does nothing.

ghost use Rattle.flat_laws.specs.Behind.{StackAloneIsRead};
ghost use Rattle.flat_laws.specs.OwnUses.{OwnUsesStay};

/// Each access of a parameter or declared local has its place in flat code, among the calls and under the same control, and
/// there is no other.
pub fn own_locals_stay()
    ensures { OwnUsesStay }
{}

/// Behind a call no result local is read before it is written, and no slot but those of the call's stack.
pub fn stack_alone_is_read()
    ensures { StackAloneIsRead }
{}
