//! The law of what is hosted. It is the contract of a function that does nothing.

ghost use Rattle.script_command.specs.HostedOriginals.{HostsAreOfOriginals};

/// What is hosted over rewritten modules are the lines of a run of their originals' world.
pub fn hosts_are_of_originals()
    ensures { HostsAreOfOriginals }
{}
