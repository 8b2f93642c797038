//! The ends of contents of known length: how a goal stands to a place, and the least end of several goals.

ghost use Rattle.std.specs.Prelude.{◌≡◌, List, ◌∷◌, Option, Some, reverse};
ghost use Rattle.wa_types.specs.Begun.{end_of, closing, passed, Goal as Wanted};
ghost use Rattle.wasm_grammar.specs.Goals.{goal_of};
ghost use Rattle.wasm_grammar.specs.Ends.{by_closing, lowered};

use crate::goals::Goal;

/// How a goal stands to a place in the file.
#[derive(Clone, Copy)]
pub(crate) enum Closing {
    /// It is still wanted there.
    Wanted,
    /// Its content ends there.
    Ended,
    /// Its content is complete, and doesn't end there.
    Early,
}

/// How this goal, the first one, stands to a place.
#[inline(always)]
pub(crate) fn closing_at(goal: Goal, at: u64) -> Closing
    ensures { (later here : Option (List Wanted)) → passed at (closing (goal_of goal)) later here ≡ by_closing result later here }
{
    match goal {
        Goal::Until(end) => {
            if at == end {
                Closing::Ended
            } else {
                Closing::Early
            }
        }
        Goal::Rest(end) => {
            if at == end {
                Closing::Ended
            } else {
                Closing::Wanted
            }
        }
        _ => Closing::Wanted,
    }
}

/// The end of a goal's content.
#[inline(always)]
pub(crate) fn end_of(goal: Goal) -> Option<u64>
    ensures { result ≡ end_of (goal_of goal) }
{
    match goal {
        Goal::Head { end, .. } | Goal::Until(end) | Goal::Rest(end) => Some(end),
        _ => None,
    }
}

/// The least of an end and of those behind it, whose least is on top.
#[inline(always)]
pub(crate) fn least_with(end: u64, ends: &[u64]) -> u64
    ensures { lowered (Some end) (reverse ends.now) ≡ result ∷ reverse ends.now }
{
    match ends {
        [] => end,
        [.., least] => end.min(*least),
    }
}
