//! What a written module has that its original hasn't: the code that saves and restores a frame, and the runtime's parts.
//!
//! A frame has the function's locals in a row and behind them the number of the call at which the function waits (`layout`).
//! `restoring` is the code that takes a frame back into the locals, `saving` the code that puts one; `specs/Spilling.antt` has both
//! instruction by instruction. `prologue` and `epilogue` are the same codes under a test that the state isn't 0. They go by the
//! places that they are given, at any offsets: a place that is left out is neither stored nor loaded, and the frame keeps its size.
//! What this code does is said by `frame_laws`; frames that differ by call are `live_frames`.
//!
//! `add_runtime` appends three types, two globals, five functions and their exports, and a memory where the module has none:
//!
//! ```text
//! asyncify_start_unwind(address)   state 1, address set, test
//! asyncify_stop_unwind()           state 0, test
//! asyncify_start_rewind(address)   state 2, address set, test
//! asyncify_stop_rewind()           state 0, test
//! asyncify_get_state() -> i32      the state
//! ```
//!
//! The test executes `unreachable` where the location word is greater than the end word. All that the module had keeps its place and
//! its index. The answer is `with_runtime` of the module (`wa_types/specs/Runtime.antt`). A module that imports from `asyncify` or exports
//! one of the five names isn't rewritten: `reserved` tells the first such.
//!
//! - `frames`, `laying`: what a frame keeps, and where.
//! - `putting`, `location`, `room`, `spilling`: stores and loads, the location moved, the test whether a frame fits, and both codes.
//! - `reserving`, `adding`: reserved names, and the runtime's parts.
#![tactic(auto)]

mod adding;
mod frames;
mod laying;
mod location;
mod putting;
mod reserving;
mod room;
mod spilling;

pub use adding::{RuntimeFault, WithRuntime, add_runtime, ids_behind};
pub use frames::{Layout, Place};
pub use laying::{layout, width};
pub use location::put_location_raised;
pub use putting::{load_of, put_all, put_loaded, put_stored, store_of};
pub use reserving::{ReservedAt, reserved};
pub use spilling::{epilogue, prologue, restoring, saving};

/// The numbers of the appended parts of a written module.
#[derive(Clone, Copy)]
pub struct RuntimeIds {
    /// The global of the state: 0 normal, 1 unwinding, 2 rewinding.
    pub state: u32,
    /// The global of the data structure's address.
    pub address: u32,
    /// The first of the five appended functions.
    pub first: u32,
}
