//! Laws of runs that the proof on rewritten modules rests on; apart from `run_theory`, as the interpreter needs that alone.
//!
//! Code that a rewriter adds keeps the original's store: it writes in the area and its own globals alone. Along a stretch of such
//! reductions a run shows no event and the old store at each cost on the way (`specs/Stretches.antt`), which is what the headline says
//! of the moments between events. What is expected of a run grows with its cost, and nothing follows an end (`specs/Growing.antt`).
//!
//! Values lie in the ranges of their types, bytes are bytes, and a memory is whole pages, 1,024 of them at most, which never grow
//! fewer (`specs/Ranges.antt`). An original may be told any number as an argument or an answer of a plan that fits it, and frames are
//! bytes: what passes through one comes back the same only because it lies in its range. The area, which lies inside the memory as it
//! is declared (`plans_in_range`), stays inside it (`area_stays_inside`).
//!
//! At every call of an import the stack is a chain. Each activation stands at a call of its function's pruned body that leads to the
//! next one inwards, the innermost to the import, and the outermost is what the host called. So where `call_indirect` isn't ignored, a
//! pause finds each activation at a numbered call (`specs/Standing.antt`), and what it suspends is a lawful stack of the entry that runs
//! (`specs/Lawful.antt`): operands of the types found just before the call, and behind it what the pruned body has there.
//!
//! - `stretch_laws`, `cost_laws`, `touch_laws`: stretches that keep the store, runs at greater and lower costs, and events with touches of
//!   the memory in one list (`specs/Seeing.antt`).
//! - `ranges`, `suspended_stacks`: ranges and memories; stacks at calls of imports.
//! - `runtime_parts`: the host finds the runtime's functions by their exports, and the size rule is kept with them.
//! - `listed_pauses`: a run all of whose pauses are at listed imports is the same whether its plan tells the list or not; so a prepared
//!   module, whose plan tells none, behaves like its original (`specs/ListedPauses.antt`).
//! - `by_hand`: a module of four instructions rewritten by hand that does what is expected, and wrong rewritings, each of which the
//!   definitions tell apart (`specs/RewrittenByHand.antt`).
#![tactic(auto)]

mod by_hand;
mod cost_laws;
mod listed_pauses;
mod ranges;
mod runtime_parts;
mod stretch_laws;
mod suspended_stacks;
mod touch_laws;

pub use by_hand::{
    frames_cut_numbers, rewritten_by_hand_as_expected, wrong_rewritings_are_told_apart,
};
pub use cost_laws::{
    compared_at_lower_costs, ends_are_last, expected_notes_grow, runs_stop_over,
    states_stay_fitting,
};
pub use listed_pauses::{
    blocking_runs_are_as_told, modules_behave_untold, modules_behave_where_listed,
    protocol_runs_are_as_told,
};
pub use ranges::{
    area_stays_inside, calls_in_range, memory_never_shrinks, openings_in_range, operators_in_range,
    plans_in_range, reductions_in_range, runs_in_range,
};
pub use runtime_parts::{plans_fit_runtime_parts, runtime_is_exported, runtime_keeps_sizes};
pub use stretch_laws::{calm_stays_off, silent_reductions_are_kept, stretches_are_kept};
pub use suspended_stacks::{
    activations_stand_at_numbers, pauses_are_lawful, stacks_are_chained, stacks_are_lawful,
};
pub use touch_laws::touches_go_with_moves;
