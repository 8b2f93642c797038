//! The rules of validity, by their numbers (standard, section 3).

/// A rule of validity (standard, section 3), by what fails; its number is the one that is printed.
#[derive(Clone, Copy, Debug)]
pub enum Rule {
    UnknownType = 1,
    UnknownFunc = 2,
    /// A table index, or no table for `call_indirect`.
    UnknownTable = 3,
    /// A memory index, or no memory for an instruction that needs one.
    UnknownMemory = 4,
    UnknownGlobal = 5,
    UnknownLocal = 6,
    UnknownLabel = 7,
    /// Operands, labels of `br_table` that differ, or results at an end.
    StackTypes = 8,
    /// An alignment above the natural one.
    Alignment = 9,
    /// A `global.set` of a constant global.
    ConstantGlobal = 10,
    BadLimits = 11,
    /// A second table or a second memory.
    SecondInstance = 12,
    /// An initialiser or an offset that isn't one constant of its type.
    NotConstant = 13,
    DuplicateExport = 14,
    /// A start function of another type than `[] -> []`.
    StartType = 15,
    /// A type with more than one result.
    SecondResult = 16,
}

impl Rule {
    ghost use Rattle.std.specs.Prelude.{◌≡◌};
    ghost use Rattle.wa_types.specs.Rules.{number};

    /// The rule's number.
    pub fn number(self) -> u8
        ensures { result ≡ number self }
    {
        self as u8
    }
}
