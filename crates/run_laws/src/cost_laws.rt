//! Laws of runs at greater and lower costs. Each is the contract of a function that does nothing.

ghost use Rattle.run_laws.specs.Stopping.{BlockingRunsFit, BlockingStatesStay, BlockingStatesStop, BlockingStopsOver, ProtocolRunsFit, ProtocolStatesStay, ProtocolStatesStop, ProtocolStopsOver};
ghost use Rattle.run_laws.specs.Growing.{BlockingEndIsLast, ComparedLower, ExpectedEndIsLast, ExpectedGrow, PausesLower, ProtocolEndIsLast};

/// What is expected within a cost begins what is expected within more.
pub fn expected_notes_grow()
    ensures { ExpectedGrow }
{}

/// What is compared up to a cost is compared up to each lower one.
pub fn compared_at_lower_costs()
    ensures runs { ComparedLower }
    ensures pauses { PausesLower }
{}

/// Nothing follows an end.
pub fn ends_are_last()
    ensures blocking { BlockingEndIsLast }
    ensures expected { ExpectedEndIsLast }
    ensures protocol { ProtocolEndIsLast }
{}

/// From each state over a store that fits a valid module, with blocking imports and under the protocol, no move is made
/// exactly where all is over. So a run of a plan that fits stops only there.
pub fn runs_stop_over()
    ensures blocking_states { BlockingStatesStop }
    ensures protocol_states { ProtocolStatesStop }
    ensures blocking { BlockingStopsOver }
    ensures protocol { ProtocolStopsOver }
{}

/// Moves lead from such states to such states, and runs of plans that fit stand there.
pub fn states_stay_fitting()
    ensures blocking_moves { BlockingStatesStay }
    ensures protocol_moves { ProtocolStatesStay }
    ensures blocking { BlockingRunsFit }
    ensures protocol { ProtocolRunsFit }
{}
