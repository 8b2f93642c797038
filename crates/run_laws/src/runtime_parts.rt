//! Laws of the runtime's parts. Each is the contract of a function that does nothing.

ghost use Rattle.run_laws.specs.RuntimeParts.{PlansFitParts, RewrittenIsExported, RuntimeIsExported, RuntimeKeepsSizes};
ghost use Rattle.run_laws.specs.Stopping.{RuntimeIsTyped};

/// The exports that the host calls are the five functions behind the original's, and take what the host gives them.
pub fn runtime_is_exported()
    ensures runtime { RuntimeIsExported }
    ensures rewritten { RewrittenIsExported }
    ensures typed { RuntimeIsTyped }
{}

/// A plan that fits a valid module fits one that shows the same to the host, and the runtime's parts behind it.
pub fn plans_fit_runtime_parts()
    ensures { PlansFitParts }
{}

/// A module that keeps the stricter size rule keeps the size rule with the runtime's parts behind its own.
pub fn runtime_keeps_sizes()
    ensures { RuntimeKeepsSizes }
{}
