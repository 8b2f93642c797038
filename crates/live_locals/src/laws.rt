//! The laws of what calls keep. Each is the contract of a function that does nothing.

ghost use Rattle.live_locals.specs.Countdown.{CountdownKeeps};

/// The call of a countdown loop keeps the counter and the operands on the stack, but not the sum, which is written behind it first.
pub fn countdown_keeps()
    ensures { CountdownKeeps }
{}
