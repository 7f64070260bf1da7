ghost use Rattle.std.specs.Prelude.{◌≡◌, ◌↔◌, IsTrue, IfOk};

use crate::memory::Memory;
use crate::names::Names;
use crate::numbers::{ChoiceNo, Day, SprintNo, UserNo};
use crate::sequence::Sequence;
use crate::text::Text;
use std::alloc::Global;

/// What a field of an issue holds.
pub enum Value {
    Empty,
    Text(Text),
    /// Thousandths.
    Number(i64),
    Choice(ChoiceNo),
    User(UserNo),
    Date(Day),
    /// Choices in the setup's order, each once.
    Set(Sequence<ChoiceNo>),
    /// Texts in the order of their bytes, each once.
    Labels(Names),
    Sprint(SprintNo),
}

// Written by hand, so that whoever lets one go makes one call, and its proof takes one step there.
impl Drop for Value {
    fn drop(self) {
        match self {
            Value::Empty
            | Value::Text(_)
            | Value::Number(_)
            | Value::Choice(_)
            | Value::User(_)
            | Value::Date(_)
            | Value::Set(_)
            | Value::Labels(_)
            | Value::Sprint(_) => {}
        }
    }
}

impl Value {
    /// Whether both are the same value.
    pub fn is_same(&self, other: &Value) -> bool
        ensures { IsTrue result ↔ (self.now ≡ other.now) }
    {
        match (self, other) {
            (Value::Empty, Value::Empty) => true,
            (Value::Text(one), Value::Text(other)) => one.is_same(other),
            (Value::Number(one), Value::Number(other)) => *one == *other,
            (Value::Choice(one), Value::Choice(other)) => one.0 == other.0,
            (Value::User(one), Value::User(other)) => one.0 == other.0,
            (Value::Date(one), Value::Date(other)) => one.0 == other.0,
            (Value::Set(one), Value::Set(other)) => is_same_set(one.as_slice(), other.as_slice()),
            (Value::Labels(one), Value::Labels(other)) => one.is_same(other),
            (Value::Sprint(one), Value::Sprint(other)) => one.0 == other.0,
            _ => false,
        }
    }

    /// Another value that is the same.
    pub fn copy(&self, alloc: Global) -> Result<Value, Memory>
        ensures { IfOk result (λ value. value ≡ self.now) }
    {
        match self {
            Value::Empty => Ok(Value::Empty),
            Value::Text(text) => Ok(Value::Text(text.copy(alloc)?)),
            Value::Number(number) => Ok(Value::Number(*number)),
            Value::Choice(no) => Ok(Value::Choice(*no)),
            Value::User(no) => Ok(Value::User(*no)),
            Value::Date(day) => Ok(Value::Date(*day)),
            Value::Set(set) => Ok(Value::Set(set_copy(alloc, set.as_slice())?)),
            Value::Labels(labels) => Ok(Value::Labels(labels.copy(alloc)?)),
            Value::Sprint(no) => Ok(Value::Sprint(*no)),
        }
    }
}

fn is_same_set(one: &[ChoiceNo], other: &[ChoiceNo]) -> bool
    ensures { IsTrue result ↔ (one.now ≡ other.now) }
{
    if one.len() != other.len() {
        return false;
    }
    for (place, no) in one.iter().enumerate() {
        if no.0 != other[place].0 {
            return false;
        }
    }
    true
}

fn set_copy(alloc: Global, set: &[ChoiceNo]) -> Result<Sequence<ChoiceNo>, Memory>
    ensures { IfOk result (λ copy. copy ≡ set.now) }
{
    let mut copy = Sequence::new(alloc);
    for no in set {
        copy.push(*no)?;
    }
    Ok(copy)
}
