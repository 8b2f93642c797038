//! What comes of one reduction.

use wa_types::{Trap, Value};

/// What came of one reduction. `more` is what it costs past 1.
#[derive(Clone, Copy)]
pub enum Flow {
    /// It led to the next configuration.
    Moved {
        more: u64,
    },
    /// It called an imported function. It took `own` operands itself, and `taken` with the arguments.
    Asked {
        more: u64,
        import: u32,
        own: usize,
        taken: usize,
    },
    /// The outermost activation returned.
    Returned {
        more: u64,
        value: Option<Value>,
    },
    /// It trapped.
    Trapped {
        more: u64,
        trap: Trap,
    },
    /// None that can be paid; or none is defined, as in no configuration that fits.
    Spent,
}
