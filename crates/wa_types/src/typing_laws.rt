//! Laws of the typing relation and of first faults (standard, section 3.3). Each is the contract of a function
//! that does nothing.

ghost use Rattle.wa_types.specs.TypingLaws.{PrunedTypes, UpToIsCut, FaultIsFirst, OneFirstFault, ValidHasNoFault, ValidIsAllHold};

/// The pruned body of a typed body has the same type.
pub fn pruned_types()
    ensures { PrunedTypes }
{}

/// Code is typed up to a place exactly where what stands before it, followed by `unreachable` and the ends that
/// are owed, is typed.
pub fn up_to_is_cut()
    ensures { UpToIsCut }
{}

/// A body's fault is the first place such that the body up to there has no type.
pub fn fault_is_first()
    ensures { FaultIsFirst }
{}

/// A module has one first fault at most.
pub fn one_first_fault()
    ensures { OneFirstFault }
{}

/// A valid module has no first fault.
pub fn valid_has_no_fault()
    ensures { ValidHasNoFault }
{}

/// A module is valid exactly where no rule fails outside its bodies and each body has its type.
pub fn valid_is_all_hold()
    ensures { ValidIsAllHold }
{}
