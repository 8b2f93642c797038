//! The headline for modules that pause, from what flattening, guards and frames owe; alone, as here the laws of all passes meet.
//!
//! Three modules stand side by side (`specs/World.antt`, `specs/Core.antt`):
//!
//! ```text
//! original    with blocking imports
//! flat        each function that may pause is flat code, or slim code
//! written     flat code, guarded, with frames; under the host's protocol
//! ```
//!
//! A link is a relation of original and flat configurations that knows neither guards nor frames (`specs/Beside.antt`,
//! `specs/Links.antt`). From what flattening owes of it (`specs/FlatLaw.antt`) `proofs/Headline.antt` proves all of `BehavesOn`: one
//! relation of both machines, moves that are matched one by one, and the bound on their costs. That proof holds for any link, so it is
//! no contract: a clause can't speak of all relations. It becomes one where a link is given, as slim code has one here.
//!
//! The emitted module is a definition (`specs/EmittedModule.antt`): each function that is told is its flat function with guards around
//! the numbered calls and with the code of its frames, every other one stays, and the runtime's parts stand behind. How frames are
//! written is given for each function; `specs/Framed.antt` says what they owe, whatever the policy, and `specs/LiveLaw.antt` which step a
//! policy may put in between. `proofs/Behaving.antt` has the headline for any such frames, `proofs/StackAgain.antt` and
//! `proofs/PauseCosts.antt` what is left for the policy that saves all; that for `live` is in `emitted_form`.
//!
//! - `rewritten_modules`: how large rewritten functions are, how deep they nest, and what a pause in them costs, by the weight of the function; runs in
//!   which nothing pauses, and modules of which nothing may: `proofs/EmptyAreas.antt` has these runs under a plan with an empty area, and
//!   `proofs/UnpausedRuns.antt` that any other area makes no difference.
//! - `three_modules`: laws on the way to the headline that name no link.
//! - `typed_locals`: what is known along the written module's run; `proofs/Owed.antt` has all that is owed of a link, but for how a
//!   suspended stack stands as frames.
//! - `slim_beside`: slim code beside the original. One reduction of the original is quiet reductions of the slim module, one that does
//!   what the original's does, and quiet ones again; sets that were left out may have to be paid later.
//! - `emitted_module`: a valid emitted module of the policy that saves all behaves like its original, whatever pauses.
#![tactic(auto)]

mod emitted_module;
mod rewritten_modules;
mod slim_beside;
mod three_modules;
mod typed_locals;

pub use emitted_module::{emitted_behave, staying_behave};
pub use rewritten_modules::{
    modules_run_unpaused, quiet_modules_are_rewritten, rewritten_is_small,
};
pub use slim_beside::slim_module_is_beside;
pub use three_modules::{parts_fit, stores_stay_together, traps_keep_stores};
pub use typed_locals::locals_stay_typed;
