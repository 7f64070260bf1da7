use field_values::{Moment, UserNo, Value};

/// How long a field held a value: from `begin`, when `author` set it, to `end`, or until now where there is none.
#[derive(Drop)]
pub struct Span<'a> {
    pub begin: Moment,
    pub end: Option<Moment>,
    pub author: UserNo,
    pub value: &'a Value,
}
