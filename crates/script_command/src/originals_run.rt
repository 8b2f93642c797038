//! Laws of what is run. Each is the contract of a function that does nothing.

ghost use Rattle.script_command.specs.Completeness.{BoundedProgramsAreWhole};
ghost use Rattle.script_command.specs.PlayedFaults.{PlayedFaultsAreCounted};
ghost use Rattle.script_command.specs.RunOriginals.{RunsAreOfOriginals};

/// What `run` tells of programs is told of their originals.
pub fn runs_are_of_originals()
    ensures { RunsAreOfOriginals }
{}

/// Under `run` no program ends as StepsSpent where its bound is within its steps.
pub fn bounded_programs_are_whole()
    ensures { BoundedProgramsAreWhole }
{}

/// The count of each device that is left rose by at least the number of its told faults, whatever is played.
pub fn played_faults_are_counted()
    ensures { PlayedFaultsAreCounted }
{}
