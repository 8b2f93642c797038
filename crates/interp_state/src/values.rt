//! A value in a list by its index, read and set.

ghost use Rattle.std.specs.Prelude.{◌≡◌, slice_set};
ghost use Rattle.wa_model.specs.Store.{value_at};

use wa_types::Value;

/// The value of this index; one that isn't there counts as zero.
pub fn value_at(values: &[Value], x: u32) -> Value
    ensures { result ≡ value_at values.now x }
{
    match values.get(x as usize) {
        Some(v) => *v,
        None => Value::I32(0),
    }
}

/// Sets the value of this index, where it is there.
pub fn set_at(values: &mut Vec<Value>, x: u32, v: Value)
    ensures { values.new.items ≡ slice_set values.old.items x v }
{
    if (x as usize) < values.len() {
        values[x as usize] = v;
    }
}
