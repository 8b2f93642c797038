//! Laws of what is written of an emitted module under `all`, with the ranges of its numbers. Each is the contract of a function that does nothing.

ghost use Rattle.emitted_form.specs.Written.{EmittedHasFewLocals, EmittedIsShort, EmittedIsSpelled, EmittedIsWellFormed};

/// The emitted module of a valid one within the bounds of a source has few locals and not too many bytes.
pub fn emitted_modules_are_short()
    ensures locals { EmittedHasFewLocals }
    ensures bytes { EmittedIsShort }
{}

/// The numbers of an emitted module are in range, and its bytes spell its norm.
pub fn emitted_modules_are_spelled()
    ensures numbers { EmittedIsWellFormed }
    ensures spelled { EmittedIsSpelled }
{}
