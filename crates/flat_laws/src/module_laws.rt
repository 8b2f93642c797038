//! Laws of flat functions and of the flat module. Each is the contract of a function that does nothing.

ghost use Rattle.flat_laws.specs.FlatModule.{FlatIsShallow, FlatIsSmall, FlatIsTyped, FlatOfPruned, FlatStmtsTyped, RuntimeIsFlattened, SameWithMemory, StacksAreSlots, ValidIsFlattened, ValidStays};

/// A valid module and the one in which some functions are flat meet all that the laws of runs ask for, with the runtime's
/// parts behind as well.
pub fn valid_modules_are_flattened()
    ensures own { ValidIsFlattened }
    ensures runtime { RuntimeIsFlattened }
    ensures same { SameWithMemory }
{}

/// Flat code is that of the pruned code, weighs little, and has the slots of the operands at its calls.
pub fn flat_code_is_small()
    ensures of_pruned { FlatOfPruned }
    ensures shallow { FlatIsShallow }
    ensures small { FlatIsSmall }
    ensures stacks { StacksAreSlots }
{}

/// Flat bodies are typed, and the module in which some functions are flat is valid.
pub fn flat_bodies_are_typed()
    ensures typed { FlatIsTyped }
    ensures stmts { FlatStmtsTyped }
    ensures valid { ValidStays }
{}
