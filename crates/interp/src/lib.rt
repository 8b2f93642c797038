//! The plain interpreter: a module's code as it is, exact in results, traps and cost (standard, section 4).
//!
//! An `Instance` stands for a store of the definitions of runs and for what waits in it (`specs/Host.antt`, `specs/Instance.antt`).
//! The one law: each call goes by the definition of reductions, `step` of `wa_model`, up to the first return, trap, call of an
//! import or reduction that costs more than is left, and pays exactly the cost. What a call promises it promises where the store and
//! what waits fit the module, as `make` and every turn leave them, and where arguments and answers have their types.
//!
//! `make` is instantiation before start, of the module itself. `Blocking` begins with that of its `Base`: where the module has no
//! memory, it opens with no bytes here and with one page there.
//!
//! `reduce` does one reduction: its flow tells what came next, with what it costs past 1 (`specs/Told.antt`). It answers `Flow::Spent`
//! also where no reduction is defined; no configuration that fits comes there (`reductions_fit` of `run_theory`), which is why `run`
//! ends exactly as the definition says. A call leaves what it took on the caller's operands and counts it, so that a stack that waits
//! shows the operands just before the call.
//!
//! No configuration that fits goes past the room of its activations (`specs/StackRooms.antt`; `heights_within` of `run_theory`), so
//! of all reductions calls of defined functions and `memory.grow` alone take memory. Where a turn lacks it, `lacks` says to which
//! call or growth the reductions had come, of which all but an import's call is unpaid.
//!
//! `restore` makes an instance with globals and a memory that are told, in place of instantiation: its table is that of instantiation,
//! and start isn't run.
//!
//! Nothing here pauses a program: `pause_host` drives instances through the protocol.
//!
//! - `locals`, `control`, `branches`: reductions that touch the running activation's locals, labels and code, or return from it.
//! - `calls`, `reducing`: calls, and one reduction by the instruction that stands next.
//! - `turns`, `run`, `go_on`, `restoring`, `instance`: how a call turns out, reductions each paid by its cost, what is asked of an
//!   instance that is put back, and instances.
#![tactic(auto)]

mod branches;
mod calls;
mod control;
mod go_on;
mod instance;
mod locals;
mod reducing;
mod restoring;
mod run;
mod turns;

pub use instance::Instance;
pub use interp_state::MakeFault;
pub use restoring::may_have_pages;
pub use run::Steps;
pub use turns::Turn;
