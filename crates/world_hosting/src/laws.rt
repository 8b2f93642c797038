//! Laws of scripts. Each is the contract of a function that does nothing.
ghost use Rattle.world_hosting.specs.Laws.{ScriptsFit, ScriptsInRange};

/// Each program of a script of at most 1,048,576 bytes can be hosted.
pub fn scripts_fit()
    ensures { ScriptsFit }
{}

/// What is told in each program of a script lies in the ranges of its types.
pub fn scripts_in_range()
    ensures { ScriptsInRange }
{}
