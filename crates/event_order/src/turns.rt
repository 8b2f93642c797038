//! The next program: the unfinished one that is due first.

ghost use Rattle.std.specs.Prelude.{◌≡◌, ℕ, List, [], ◌∷◌, ◌++◌, Option, length};
ghost use Rattle.event_order.specs.Turns.{IsTurn};

/// A program's turn: its number, and the tick at which it is due.
#[derive(Clone, Copy, Debug, PartialEq, Eq)]
pub struct Turn {
    pub program: usize,
    pub due: u64,
}

/// The unfinished program with the least pair of due tick and number; None exactly where all have ended, which have no
/// due tick.
pub fn next_turn(dues: &[Option<u64>]) -> Option<Turn>
    ensures { IsTurn dues.now result }
{
    let mut next = None;
    for (program, due) in dues.iter().enumerate() {
        next = sooner(next, program, *due);
    }
    next
}

/// The next turn with one more program.
fn sooner(next: Option<Turn>, program: usize, due: Option<u64>) -> Option<Turn>
    ensures { (before : List (Option ℕ)) → length before ≡ program → IsTurn before next
        → IsTurn (before ++ due ∷ []) result }
{
    let Some(due) = due else {
        return next;
    };
    let Some(turn) = next else {
        return Some(Turn { program, due });
    };
    if due < turn.due {
        return Some(Turn { program, due });
    }
    Some(turn)
}
