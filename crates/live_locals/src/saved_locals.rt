//! The law of saved locals: the contract of a function that does nothing.

ghost use Rattle.live_locals.specs.LiveSaved.{LiveIsSaved};

/// For a function that `flatten` gives, the locals that a call keeps, each with its type and in their order, are those that the policy
/// `live` saves there.
pub fn live_is_saved()
    ensures { LiveIsSaved }
{}
