//! Worlds of strands as they are told. Each is the contract of a function that does nothing.

ghost use Rattle.strand_laws.specs.ToldStrands.{AllToldStrandsAreWorld, StrandWorldsEnd, ToldStrandsAreWorld, ToldStrandsGoOn};

/// Turns of strands that were told one after another, each of the strand that is due next, are a protocol world of strands played up to
/// there, where what each program has told begins what its strands tell, for some outcomes that later calls may meet.
pub fn told_strands_are_a_world()
    ensures { ToldStrandsAreWorld }
{}

/// Once all programs have ended they are a whole run of it, with what is shown behind each program's last event.
pub fn all_told_strands_are_a_world()
    ensures { AllToldStrandsAreWorld }
{}

/// After however many turns, and whatever the devices have replied so far, the world goes on to an end: what was told begins a run of it.
pub fn told_strands_go_on()
    ensures { ToldStrandsGoOn }
{}

/// So for any programs with strands, detaches and devices there is a run of the protocol world of strands, to the end of all.
pub fn strand_worlds_end()
    ensures { StrandWorldsEnd }
{}
