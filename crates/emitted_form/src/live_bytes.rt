//! Laws of what is written of the emitted module under `live`. Each is the contract of a function that does nothing.

ghost use Rattle.emitted_form.specs.LiveBytes.{LiveHasFewLocals, LiveIsPrepared, LiveIsShort, LiveIsSpelled};

/// Its functions declare few locals, and its bytes are fewer than a `u64` numbers.
pub fn live_modules_are_short()
    ensures locals { LiveHasFewLocals }
    ensures bytes { LiveIsShort }
{}

/// What is written of it, where that isn't long, spells its norm.
pub fn live_modules_are_spelled()
    ensures { LiveIsSpelled }
{}

/// Of a source module it is within the bounds of a prepared module.
pub fn live_modules_are_prepared()
    ensures { LiveIsPrepared }
{}
