//! Laws of stores that hold a pause. Each is the contract of a function that does nothing.

ghost use Rattle.image_laws.specs.Example.{HandWrittenComesBack, HandWrittenDont, HandWrittenHolds};
ghost use Rattle.image_laws.specs.HeldPauses.{BoundsJoin, EntryIsNumbered, ImageGoesOn, OneSavesAnotherGoesOn, PausesHold, WholeBound};

/// Where the original waits at a pause, the emitted module goes on from any store that holds the pause, whatever wrote it: rewound, it
/// does what the original does from its answer on, within the bound.
pub fn image_goes_on()
    ensures { ImageGoesOn }
{}

/// The emitted module itself comes to that pause, with the expected events and within the bound, and its own store holds it.
pub fn pauses_hold()
    ensures { PausesHold }
{}

/// One emitted module comes to the pause, and another one of the same original goes on from its store.
pub fn one_saves_another_goes_on()
    ensures { OneSavesAnotherGoesOn }
{}

/// What a run may cost up to a pause and what the rest may cost behind it are together the headline's bound, also where one emitted
/// module unwinds and another rewinds.
pub fn bounds_join()
    ensures { BoundsJoin }
{}

/// For a pause along a run they are the bound of that whole run.
pub fn whole_bound()
    ensures { WholeBound }
{}

/// The entry that runs at a pause is the one of its number in the plan, and those behind it are left.
pub fn entry_is_numbered()
    ensures { EntryIsNumbered }
{}

/// A store that is written by hand holds a pause, whatever stands where nothing is wanted; with the location before the frame, with another value,
/// another number of the call or another state, with a byte changed below the area, or with the frame of the other policy it holds none.
pub fn stores_hold_a_pause()
    ensures written { HandWrittenHolds }
    ensures others { HandWrittenDont }
{}

/// Whatever is emitted of that module goes on from such a store: it is answered, returns what the original returns, and is done.
pub fn hand_written_store_comes_back()
    ensures { HandWrittenComesBack }
{}
