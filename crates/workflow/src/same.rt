// When two values are the same.
ghost use Rattle.std.specs.Prelude.{◌≡◌};
ghost use Rattle.workflow.specs.Same.{same_value, is_empty};

use fields::Value;

/// Whether both are the same value.
pub fn is_same(one: &Value, other: &Value) -> bool
    ensures { result ≡ same_value one.now other.now }
{
    one.is_same(other)
}

/// Whether a field that holds this holds nothing.
pub fn is_empty(value: &Value) -> bool
    ensures { result ≡ is_empty value.now }
{
    match value {
        Value::Empty => true,
        _ => false,
    }
}
