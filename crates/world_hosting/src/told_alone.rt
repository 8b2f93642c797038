//! Laws of what is told. Each is the contract of a function that does nothing.

ghost use Rattle.world_hosting.specs.ToldAlone.{AloneText, UnboundWithoutLines};

/// What is told of a program without bound imports alone are its own lines among those of all programs.
pub fn unbound_programs_are_told_alone()
    ensures text { AloneText }
    ensures unbound { UnboundWithoutLines }
{}
