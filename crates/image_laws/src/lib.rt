//! Laws of images of suspended stacks; alone, as `joined_worlds` and promises alone rest on them.
//!
//! A store that holds the image of a suspended stack comes back: from there an emitted module does what its original does from its
//! answer on, whatever wrote the store. `specs/Image.antt` says what a store holds at a pause and what the rest of a run owes,
//! `specs/HeldPauses.antt` has the laws, and `specs/Example.antt` stores that are written by hand and come back: `proofs/ExampleModule.antt`
//! and `proofs/ExampleRuns.antt` have that a small module and its run meet what the laws ask. In a frame only the own locals that are saved and the slots of the call's operands are told: `proofs/ChosenFields.antt`
//! chooses every other kept slot as what the memory has there, and `proofs/ChosenStacks.antt` has that a flat stack with such slots
//! stands beside the same original. From any related pair whose original asks an import that pauses, `proofs/ToPause.antt` has the way
//! to the pause, and `proofs/AtPause.antt` the way back over any store that holds it; `proofs/Emitted.antt` has both policies.
#![tactic(auto)]

mod held_pauses;

pub use held_pauses::{
    bounds_join, entry_is_numbered, hand_written_store_comes_back, image_goes_on,
    one_saves_another_goes_on, pauses_hold, stores_hold_a_pause, whole_bound,
};
