//! Laws of guarded and written code with asserts. Each is the contract of a function that does nothing.

ghost use Rattle.assert_laws.specs.AssertedUnits.{FlatIsAsserted, GuardedIsAsserted, WrittenIsAsserted};

/// Asserted pieces make the asserted code, flat or written.
pub fn guarded_code_is_asserted()
    ensures flat { FlatIsAsserted }
    ensures guarded { GuardedIsAsserted }
    ensures written { WrittenIsAsserted }
{}
