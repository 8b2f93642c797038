//! Laws of the emitted module. Each is the contract of a function that does nothing.

ghost use Rattle.emitted_form.specs.ByCallFraming.{FramesByCallAreLive};
ghost use Rattle.emitted_form.specs.LiveBehaves.{LiveEmittedBehaves};

/// For the policy `live`, a valid emitted module behaves like its original, whatever pauses.
pub fn live_emitted_behave()
    ensures { LiveEmittedBehaves }
{}

/// Frames of parts that some calls keep are such frames as it asks for, where the parts of each call are in a row what the policy saves
/// there.
pub fn frames_by_call_are_live()
    ensures { FramesByCallAreLive }
{}
