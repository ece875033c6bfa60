//! Comparing fields and values.

ghost use Rattle.std.specs.Prelude.{◌≡◌, true};
ghost use Rattle.ti_resolve.specs.Uses.{is_about};

use ti_caps::{Cap, Value};
use ti_source::Field;

/// Whether both are the same bytes.
pub fn same_bytes(one: &[u8], other: &[u8]) -> bool
    ensures { result ≡ true → one.now ≡ other.now }
{
    one == other
}

/// Whether both are the same value.
pub fn same_value(one: &Value, other: &Value) -> bool
    ensures { result ≡ true → one.now ≡ other.now }
{
    match (one, other) {
        (Value::Flag, Value::Flag) => true,
        (Value::Number(one), Value::Number(other)) => *one == *other,
        (Value::String(one), Value::String(other)) => {
            same_bytes(one.as_slice(), other.as_slice())
        }
        _ => false,
    }
}

fn same_field(one: &Field, other: &Field) -> bool
    ensures { result ≡ true → one.now ≡ other.now }
{
    match (one, other) {
        (Field::Set(one, value), Field::Set(other, other_value)) => {
            one.place() == other.place() && same_value(value, other_value)
        }
        (Field::Cancel(one), Field::Cancel(other)) => one.place() == other.place(),
        (Field::Include(one), Field::Include(other)) => {
            same_bytes(one.as_slice(), other.as_slice())
        }
        _ => false,
    }
}

/// Whether the field is about the capability.
pub fn is_about(field: &Field, cap: Cap) -> bool
    ensures { result ≡ is_about cap field.now }
{
    match field {
        Field::Set(other, _) => other.place() == cap.place(),
        Field::Cancel(other) => other.place() == cap.place(),
        Field::Include(_) => false,
    }
}

/// Whether these are the same fields.
pub fn same_fields(old: &[Field], new: &[Field]) -> bool
    ensures { result ≡ true → old.now ≡ new.now }
{
    let mut rest = new;
    for field in old {
        match rest {
            [] => return false,
            [first, behind @ ..] => {
                if !same_field(field, first) {
                    return false;
                }
                rest = behind;
            }
        }
    }
    rest.is_empty()
}
