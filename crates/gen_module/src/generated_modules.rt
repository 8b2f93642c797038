//! Laws of generated modules. Each is the contract of a function that does nothing.

ghost use Rattle.gen_module.specs.GeneratedModules.{GeneratedIsSmall, GeneratedIsValid};
ghost use Rattle.gen_module.specs.GeneratedRuns.{FewFunctionsReturn, GeneratedPausesOnce};

/// Generated modules are valid (standard, section 3.4).
pub fn generated_modules_are_valid()
    ensures { GeneratedIsValid }
{}

/// They keep the stricter size rule.
pub fn generated_modules_are_small()
    ensures { GeneratedIsSmall }
{}

/// Rewritten and run over a page as its area, they pause once and return what their functions make of the answer.
pub fn generated_modules_pause_once()
    ensures { GeneratedPausesOnce }
{}

/// What a few functions return, computed.
pub fn few_functions_return()
    ensures { FewFunctionsReturn }
{}
