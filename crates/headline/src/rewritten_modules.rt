//! Laws of rewritten functions, and of runs in which nothing pauses. Each is the contract of a function that does nothing.

ghost use Rattle.headline.specs.Given.{RunsUnpaused};
ghost use Rattle.headline.specs.Rewritten.{RewrittenIsSmall};
ghost use Rattle.run_theory.specs.Quiet.{QuietAreRewritten};

/// A function of plain pieces, each call noted, with one layout has at most 112 instructions and branch labels for each unit of its weight,
/// and for four more; so has its guarded code alone. It nests at most 3 times as deep as its original and 8, and unwinding and rewinding it
/// together cost at most 112 a unit, and four more.
pub fn rewritten_is_small()
    ensures { RewrittenIsSmall }
{}

/// A module that behaves like its original under given plans does what its original does where nothing pauses, whatever the area.
pub fn modules_run_unpaused()
    ensures { RunsUnpaused }
{}

/// A module of which nothing may pause is rewritten by the runtime's parts behind its own.
pub fn quiet_modules_are_rewritten()
    ensures { QuietAreRewritten }
{}
