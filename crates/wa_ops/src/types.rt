//! Equal value types, and the type of a value (standard, sections 2.3.1 and 4.2.1).

ghost use Rattle.std.specs.Prelude.{◌≡◌};
ghost use Rattle.wa_types.specs.Encoding.{same_type};
ghost use Rattle.wa_types.specs.Typing.{type_of};

use wa_types::{ValType, Value};

/// Whether two types are the same.
pub fn same_types(a: ValType, b: ValType) -> bool
    ensures { result ≡ same_type a b }
{
    match (a, b) {
        (ValType::I32, ValType::I32) => true,
        (ValType::I64, ValType::I64) => true,
        _ => false,
    }
}

/// The type of a value (standard, section 4.2.1).
pub fn type_of_value(v: Value) -> ValType
    ensures { result ≡ type_of v }
{
    match v {
        Value::I32(_) => ValType::I32,
        Value::I64(_) => ValType::I64,
    }
}
