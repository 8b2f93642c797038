//! The law of what a host of strands has told: the contract of a function that does nothing.

ghost use Rattle.strand_host.specs.StrandHosts.{ToldStrandLinesBegin};

/// The lines that a host has told begin a run of the world.
pub fn told_strand_lines_begin_a_world()
    ensures { ToldStrandLinesBegin }
{}
