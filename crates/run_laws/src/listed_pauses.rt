//! Runs with pauses at listed imports, told or not.

ghost use Rattle.run_laws.specs.ListedPauses.{BehavesUntold, BehavesWhereListed, BlockingAsTold, ProtocolAsTold};

/// A run with blocking imports that pauses at listed imports alone is that of a plan that tells them.
pub fn blocking_runs_are_as_told()
    ensures { BlockingAsTold }
{}

/// So is a run under the protocol.
pub fn protocol_runs_are_as_told()
    ensures { ProtocolAsTold }
{}

/// A rewritten module behaves like its original under a plan that tells no list, where the original pauses at listed imports alone.
pub fn modules_behave_untold()
    ensures { BehavesUntold }
{}

/// Where `call_indirect` isn't ignored nothing else is asked of pauses.
pub fn modules_behave_where_listed()
    ensures { BehavesWhereListed }
{}
