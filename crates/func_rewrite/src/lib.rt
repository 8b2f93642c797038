//! One function as it is written by the policy of the settings: flat, in slim pieces, guarded, with the code of its frames.
//!
//! ```text
//! block
//!   block
//!     where the state isn't 0: restore the frame and seek the call it was saved at; else the first piece
//!     guarded pieces; a call that returned with the state 1 leaves both blocks
//!   end
//!   the result; return
//! end
//! save the frame; a value of the result's type
//! ```
//!
//! The inner block is the flat function's own, and its guarded pieces begin with whatever blocks they need: the first test of the
//! state stands inside those that are entered in front of it. All runs but one that pauses return inside the outer block, so the code
//! behind it needs no test, and the value that it leaves is read by nothing.
//!
//! `write_by_policy` writes a function from its flat code (`flatten`), with its pieces and guards from `slim_rewrite`; `frames_by_policy`
//! answers the frames of its numbered calls, for who asks for them.
//!
//! Under `all` a frame has a place for each parameter, declared local and slot. The written code goes over the parameters, the
//! declared locals and the slots that hold an operand at some numbered call (`kept_locals`); the places of others stay as gaps
//! (`chosen_frame`), and the code is that of `local_spill`. Under `live` the sets of locals that the numbered calls keep
//! (`live_locals`) make the parts of the frames (`call_frames`), and these their code (`live_frames`).
//!
//! The law: the function is one that the definition of the emitted module asks for (`IsWritten` of `emitted_form/specs/EmittedAs.antt`), or
//! memory is lacking. Which functions are written, and the module around them, are `module_rewrite`'s matter.
//!
//! - `pass`: what all functions of a module are written by.
//! - `locals`, `body`: declared locals, and the body around guarded pieces, with the codes of its frame, for both policies.
//! - `kept`, `frames`, `function`: under `all` which locals frames keep, the frames of calls, and the function.
//! - `calls`, `layouts`, `live_function`: the same under `live`.
//! - `policy`: by the settings.
#![tactic(auto)]

mod body;
mod calls;
mod frames;
mod function;
mod kept;
mod layouts;
mod live_function;
mod locals;
mod pass;
mod policy;

pub use flatten::{FlatFault, Flattened, flatten_func};
pub use pass::Pass;
pub use policy::{frames_by_policy, write_by_policy};
