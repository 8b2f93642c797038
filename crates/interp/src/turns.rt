//! How a call of an instance turns out, and what waits in it.

use interp_state::Stack;
use wa_model::Call;
use wa_types::{Trap, Value};

/// How a call of an instance turned out.
#[derive(Drop)]
pub enum Turn {
    /// The function that was called returned.
    Returned(Option<Value>),
    /// A reduction trapped.
    Trapped(Trap),
    /// It called an import, and waits for the answer.
    Waiting(Call),
    /// The next reduction costs more than is left.
    StepsSpent,
}

/// What waits for the answer of an import: nothing, the host that called it, or a stack, of whose innermost activation the
/// call took so many operands.
#[derive(Drop)]
pub enum Wait<'m> {
    Nothing,
    Outermost,
    Inside { stack: Stack<'m>, taken: usize },
}
