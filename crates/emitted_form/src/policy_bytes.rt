//! Laws of what is written of what is emitted, by either policy. Each is the contract of a function that does nothing.

ghost use Rattle.emitted_form.specs.PolicyBytes.{EmittedAsHasFewLocals, EmittedAsIsPrepared, EmittedAsIsShort, EmittedAsIsSpelled, WrittenIsShort};

/// A function as it is written declares few locals, and its entry is no longer than a `u64` numbers.
pub fn written_functions_are_short()
    ensures { WrittenIsShort }
{}

/// An emitted module declares few locals, and its bytes are fewer than a `u64` numbers.
pub fn emitted_is_short()
    ensures locals { EmittedAsHasFewLocals }
    ensures bytes { EmittedAsIsShort }
{}

/// What is written of it, where that isn't long, spells its norm.
pub fn emitted_is_spelled()
    ensures { EmittedAsIsSpelled }
{}

/// Of a source module it is within the bounds of a prepared module.
pub fn emitted_is_prepared()
    ensures { EmittedAsIsPrepared }
{}
