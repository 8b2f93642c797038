//! Value types, values, and the causes of traps (standard, sections 2.3.1, 4.2.1 and 4.2.2).

/// A value type (standard, section 2.3.1). Floats are not among them.
#[derive(Clone, Copy, Debug, PartialEq, Eq)]
pub enum ValType {
    I32,
    I64,
}

/// A value of one of the value types, as an unsigned number of its width (standard, section 4.2.1).
#[derive(Clone, Copy, Debug, PartialEq, Eq)]
pub enum Value {
    I32(u32),
    I64(u64),
}

/// Why a run traps (standard, section 4.2.2), in the order of their numbers from 1 to 9; all but `Import` are reductions'.
#[derive(Clone, Copy, Debug, PartialEq, Eq)]
pub enum Trap {
    DivideByZero,
    IntegerOverflow,
    OutOfBounds,
    Unreachable,
    UndefinedElement,
    UninitializedElement,
    TypeMismatch,
    StackExhausted,
    /// An import trapped.
    Import,
}
