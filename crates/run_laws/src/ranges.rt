//! Laws of ranges and of memories. Each is the contract of a function that does nothing.

ghost use Rattle.run_laws.specs.Ranges.{AnswersIn, BlockingHoldsArea, BlockingIn, BlockingLater, BlockingMemoryGrows, CallsIn, ComparedIn, EndsIn, FitsAreas, FitsIn, OpeningsIn, OperatorsIn, ProtocolHoldsArea, ProtocolIn, ProtocolLater, ProtocolMemoryGrows, StepsIn, StretchesIn, WellFormedIn};

/// What an operator makes of operands in range is in range (standard, section 4.4.1).
pub fn operators_in_range()
    ensures { OperatorsIn }
{}

/// A reduction of a module whose constants are in range leads from a configuration in range to one in range.
pub fn reductions_in_range()
    ensures steps { StepsIn }
    ensures stretches { StretchesIn }
    ensures ends { EndsIn }
{}

/// Calls and answers in range begin and go on in range.
pub fn calls_in_range()
    ensures calls { CallsIn }
    ensures answers { AnswersIn }
{}

/// An instance of a module whose constants are in range is in range, with a memory as it declares it.
pub fn openings_in_range()
    ensures { OpeningsIn }
{}

/// Each note of a run, with blocking imports or under the protocol, is in range, and so is where the run then stands.
pub fn runs_in_range()
    ensures blocking { BlockingIn }
    ensures protocol { ProtocolIn }
    ensures compared { ComparedIn }
{}

/// Where there is an instance, the area of a plan that fits lies inside the memory all along a run.
pub fn area_stays_inside()
    ensures blocking { BlockingHoldsArea }
    ensures protocol { ProtocolHoldsArea }
{}

/// No move makes the memory shorter, and it stays whole pages, 1,024 of them at most.
pub fn memory_never_shrinks()
    ensures blocking_moves { BlockingMemoryGrows }
    ensures protocol_moves { ProtocolMemoryGrows }
    ensures blocking { BlockingLater }
    ensures protocol { ProtocolLater }
{}

/// A well-formed module holds constants and bytes in range. So does what a plan that fits it gives, and its area lies inside
/// the memory of the rewritten module.
pub fn plans_in_range()
    ensures modules { WellFormedIn }
    ensures values { FitsIn }
    ensures areas { FitsAreas }
{}
