use field_values::Value;

/// What a call wants a field to hold.
#[derive(Drop)]
pub enum Wanted {
    /// Nothing is wanted: the field stays as it is.
    Nothing,

    /// What was given for the field is none of its values.
    NoValue,

    /// This value.
    Value(Value),
}
