//! Laws of the strands of what is emitted. Each is the contract of a function that does nothing.

ghost use Rattle.strand_laws.specs.EmittedStrands.{StrandPausesAtNumbers, StrandsOfEmitted};
ghost use Rattle.strand_laws.specs.Example.{ThreeTakeTurns};

/// Under both policies the strands of what is emitted behave like those of its original: the same events of the same strands, within
/// the bound; at each the stores agree outside all areas, at a pause the strand's area holds the image of its stack, and between events
/// the store is one that the original has; once both have told as much, no strand goes on in the one where none does in the other.
/// Answers may be traps, also behind a pause.
pub fn strands_of_emitted()
    ensures { StrandsOfEmitted }
{}

/// Where `call_indirect` isn't ignored and the listed imports are told, each pause of an original's strands finds its activations at
/// numbered calls.
pub fn strand_pauses_at_numbers()
    ensures { StrandPausesAtNumbers }
{}

/// Three strands of a small module, of which each pauses once and one then meets a trap, take turns as they are due, and those of
/// whatever is emitted of it do too: what is asked of strands can be met.
pub fn three_strands_take_turns()
    ensures { ThreeTakeTurns }
{}
