//! The law of the slim module. It is the contract of a function that does nothing.

ghost use Rattle.headline.specs.SlimBeside.{SlimModuleIsBeside};

/// The slim module stands beside the original as the headline's links ask.
pub fn slim_module_is_beside()
    ensures { SlimModuleIsBeside }
{}
