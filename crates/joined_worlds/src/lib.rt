//! Worlds that are saved at an event and gone on with from the snapshot, as worlds of their originals; alone, as both images and worlds are below.
//!
//! What saves needn't be the module that goes on: both are emitted of one original. Up to a pause the first behaves as that original, and its store
//! holds the pause; from any store that holds it the second one does what the original does from its answer on. So the lines of both are those of
//! one run of the originals, whose imports block (`specs/JoinedOriginals.antt`).
#![tactic(auto)]

mod joined_laws;

pub use joined_laws::joined_worlds_are_of_originals;
