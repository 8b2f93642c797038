//! The module that rewriting emits, by either policy, as a definition with its laws; alone, as writers and promises rest on it.
//!
//! Functions that may pause are flat, in some slim pieces, guarded and with frames, all others stay, and the runtime's parts stand
//! behind: under `all` (`specs/Emitted.antt`, and for any codes of frames `specs/EmittedBy.antt`), under `live` with frames that differ
//! by call (`specs/LiveParts.antt`), and by the policy of the settings (`specs/EmittedAs.antt`). A caller may rely on this: the emitted
//! module of a valid one is valid, is its original, rewritten, and behaves like it, whatever pauses; its numbers are in range, its
//! functions declare few locals, and its bytes, which are not too many, spell its norm; and of a source it is a prepared module, which
//! has no float and is within the wider bounds. `module_rewrite` writes that module; nothing is computed here, each law is the contract
//! of a function that does nothing.
//!
//! Under `live` what a local's value is doesn't matter where no path reads it before it is written (`specs/SameLive.antt`). So a stack
//! that comes back from frames of that policy differs from the one that was suspended only in locals that no path reads first, with the
//! same operands in their slots: that is the step in between that this policy puts between a run that was paused and one that wasn't.
//!
//! - `emitted_module`, `emitted_runs`, `emitted_bytes`: under `all` it is its original, rewritten, but for its runs, and then with them;
//!   what is written of it (`specs/Written.antt`).
//! - `live_suffices`, `stacks_again`: live locals suffice; what comes back of a stack from frames of the policy `live`
//!   (`specs/LiveFrames.antt`).
//! - `live_emitted`: the headline for the policy `live`. `specs/LiveFraming.antt` says what frames owe. `proofs/LiveFramed.antt` has that
//!   they stand for suspended stacks as the laws on stacks want it, `proofs/ChosenStacks.antt` and `proofs/LiveAgain.antt` that what
//!   came back stands beside such a stack.
//! - `live_modules`, `policies`: the emitted module under `live`, and by the policy of the settings.
//! - `prepared_modules`, `live_bytes`, `policy_bytes`: what is written of it, under `live` and by either policy.
#![tactic(auto)]

mod emitted_bytes;
mod emitted_module;
mod emitted_runs;
mod live_bytes;
mod live_emitted;
mod live_modules;
mod live_suffices;
mod policies;
mod policy_bytes;
mod prepared_modules;
mod stacks_again;

pub use emitted_bytes::{emitted_modules_are_short, emitted_modules_are_spelled};
pub use emitted_module::{emitted_module_is_rewritten, emitted_module_keeps_sizes};
pub use emitted_runs::emitted_module_behaves;
pub use live_bytes::{live_modules_are_prepared, live_modules_are_short, live_modules_are_spelled};
pub use live_emitted::{frames_by_call_are_live, live_emitted_behave};
pub use live_modules::{
    live_module_is_rewritten, live_module_is_valid, live_module_is_well_formed,
    live_module_keeps_sizes, live_module_rewrites,
};
pub use live_suffices::{live_locals_stand, live_locals_suffice};
pub use policies::{
    emitted_behaves_given, emitted_differ_in_code, emitted_is_rewritten, emitted_is_valid,
    emitted_keeps_sizes, emitted_reads_few, emitted_rewrites, functions_are_emitted,
    written_reads_few,
};
pub use policy_bytes::{
    emitted_is_prepared, emitted_is_short, emitted_is_spelled, written_functions_are_short,
};
pub use prepared_modules::emitted_modules_are_prepared;
pub use stacks_again::{live_comes_back, live_stacks_come_back};
