//! Laws of the module that the policy `live` emits. Each is the contract of a function that does nothing.

ghost use Rattle.emitted_form.specs.LiveModuleLaws.{LiveIsRewritten, LiveIsValid, LiveIsWellFormed, LiveKeepsSizes, LiveRewrites};

/// The emitted module is valid.
pub fn live_module_is_valid()
    ensures { LiveIsValid }
{}

/// It is the original, rewritten, in every part but its runs; its codes are no larger than what the calls save allows.
pub fn live_module_is_rewritten()
    ensures { LiveIsRewritten }
{}

/// It is the original, rewritten: it behaves like it under every plan of pauses.
pub fn live_module_rewrites()
    ensures { LiveRewrites }
{}

/// It keeps the size rule.
pub fn live_module_keeps_sizes()
    ensures { LiveKeepsSizes }
{}

/// Its numbers are in range where those of the original are.
pub fn live_module_is_well_formed()
    ensures { LiveIsWellFormed }
{}
