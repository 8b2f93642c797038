//! The laws of what comes back. Each is the contract of a function that does nothing.

ghost use Rattle.emitted_form.specs.LiveFrames.{LiveComesBack, LiveStacksComeBack};

/// Flat locals that agree with those of a suspended activation wherever its frame keeps one stand beside an activation of the
/// original that differs from it only in locals that no path reads first.
pub fn live_comes_back()
    ensures { LiveComesBack }
{}

/// So does a whole stack that came back: beside a stack of the original that differs from the suspended one only there.
pub fn live_stacks_come_back()
    ensures { LiveStacksComeBack }
{}
