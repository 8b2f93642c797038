//! Laws of the parts. Each is the contract of a function that does nothing.

ghost use Rattle.call_frames.specs.Framed.{SetsAreFramed};

/// Parts that keep the sets of calls have codes that save and restore at each call exactly the locals of its set, in order, and
/// cost little there. Together they have at most 30 instructions for each local that a call keeps, and 32, and they have their types.
pub fn sets_are_framed()
    ensures { SetsAreFramed }
{}
