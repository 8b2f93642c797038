//! Laws of configurations and runs (standard, sections 4.2 and 4.4). Each is the contract of a function that does nothing.

ghost use Rattle.run_theory.specs.DeterminedRuns.{EndsOneWay, MovesAddUp, OneNext, ProtocolAreMoves, ProtocolDetermined, ProtocolGrows, PrunedRunsSame, ReductionsTrapThemselves, RunsAreMoves, RunsDetermined, RunsGrow};

/// A configuration has one next configuration at most, at one cost.
pub fn one_next_configuration()
    ensures { OneNext }
{}

/// A run is determined by its module, plan and outcomes.
pub fn runs_are_determined()
    ensures blocking { RunsDetermined }
    ensures protocol { ProtocolDetermined }
{}

/// A run up to a cost is made by the moves that can be paid, and by no others.
pub fn runs_are_moves()
    ensures blocking { RunsAreMoves }
    ensures protocol { ProtocolAreMoves }
{}

/// A run up to a cost begins each run up to more.
pub fn runs_grow()
    ensures blocking { RunsGrow }
    ensures protocol { ProtocolGrows }
{}

/// Moves add up.
pub fn moves_add_up()
    ensures { MovesAddUp }
{}

/// Code that can't be reached changes no run.
pub fn pruned_runs_are_the_same()
    ensures { PrunedRunsSame }
{}

/// The reductions from a configuration, as many as may be paid, end in one way.
pub fn reductions_end_one_way()
    ensures { EndsOneWay }
{}

/// No reduction traps for an import: only an answer does.
pub fn reductions_trap_themselves()
    ensures { ReductionsTrapThemselves }
{}
