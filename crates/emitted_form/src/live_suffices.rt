//! The laws of live locals. Each is the contract of a function that does nothing.

ghost use Rattle.emitted_form.specs.SameLive.{LiveLocalsStand, LiveLocalsSuffice};

/// Configurations that differ in locals that no path reads before it writes them do the same next, and stay so.
pub fn live_locals_suffice()
    ensures { LiveLocalsSuffice }
{}

/// For the policy `live` they are a step in between as the headline allows it: frames that stand for one of them stand for the other.
pub fn live_locals_stand()
    ensures { LiveLocalsStand }
{}
