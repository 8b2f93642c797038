//! What a suspended program keeps in its frames, computed for any valid module.
//!
//! `saved` lists the locals that the frame of a call saves, and `room` says how many bytes of the area a suspended stack takes, under
//! both policies. Their answers are those of the definitions (`wa_types/specs/Frames.antt`).
//!
//! They serve to look at a function, and not to rewrite a module: they go over its pruned body anew for each question, by recursion,
//! and take time of the product of its size and its locals or its greatest height. Rewriting finds the same in `func_rewrite` and
//! `live_locals`.
//!
//! - `locals`, `points`, `slot_pairs`: the types of a function's locals; its operands at each point and just before each call, noted
//!   by a walk of types; and its slots, the heights and types that stand together at some point.
//! - `liveness`: whether a local is read before it is written, from just after a call on (`wa_types/specs/Liveness.antt`).
//! - `frames`: `saved` and `room`.
#![tactic(auto)]

mod frames;
mod liveness;
mod locals;
mod points;
mod slot_pairs;

pub use frames::{Place, Suspended, room, saved};
