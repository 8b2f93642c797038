//! What runs of a module are, as definitions, and the plain types that hosts and rewriters share.
//!
//! A module runs by small steps: a configuration is a store and a stack of activations, and `step` computes
//! the one next configuration with its cost (`specs/Configuration.antt`, `specs/Step.antt`). Two machines stand
//! on it. `Blocking` runs an original whose imports answer at once; it makes events, and keeps the suspended
//! stack at each call (`specs/Blocking.antt`). `Protocol` runs a rewritten module as a host does, which unwinds
//! the stack into a range of memory and rewinds it through five exports (`specs/Protocol.antt`). `Behaves` says
//! what the second owes the first, and `Rewrites` what a rewritten module is (`specs/Behaves.antt`,
//! `specs/Rewrites.antt`): the headline is a sentence over these.
//!
//! Read in the order `Machine`, `Store`, `Configuration`, `Step`, `Outside`, `Instantiation`, `Plan`, `Blocking`, `Untouched`,
//! `Protocol`, `Expected`, `Behaves`, `Rewrites`. `proofs/Cases.antt` has small runs that these definitions compute. What holds of all
//! runs stands in `run_theory`, several programs with devices in `world_model`, what scripts and transcripts are in `script_model`.
#![tactic(auto)]

mod answers;
mod events;
mod flat;

pub use answers::{Answer, AnswerLine, Area, Detach, Poke, Said};
pub use events::{Call, End, Event, Line};
pub use flat::{FlatFunc, FlatModule, Operand, Stmt};
