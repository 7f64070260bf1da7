// What the names and numbers in a row stand for.
use crate::rows::fault::Fault;
use change_history::Key;
use field_values::{FieldNo, Moment, UserNo, Value};
use fields::Setup;
use std::alloc::Global;

/// The moment of so many seconds.
pub fn moment_of(text: &str) -> Result<Moment, Fault> {
    let Ok(seconds) = text.parse::<u64>() else {
        return Err(Fault::NoRow);
    };
    match Moment::new(seconds) {
        Some(moment) => Ok(moment),
        None => Err(Fault::NoRow),
    }
}

/// The user of that name.
pub fn user_of(setup: &Setup, name: &str) -> Result<UserNo, Fault> {
    match setup.user_named(name) {
        Some(user) => Ok(user),
        None => Err(Fault::NoRow),
    }
}

/// The key that a text writes.
pub fn key_of(alloc: Global, text: &str) -> Result<Key, Fault> {
    let Some((project, number)) = text.split_once('-') else {
        return Err(Fault::NoRow);
    };
    let Ok(number) = number.parse::<u32>() else {
        return Err(Fault::NoRow);
    };
    Ok(Key::of(alloc, project, number)?)
}

/// The field of that name.
pub fn field_of(setup: &Setup, name: &str) -> Result<FieldNo, Fault> {
    match setup.field_named(name) {
        Some(field) => Ok(field),
        None => Err(Fault::NoRow),
    }
}

/// The value that a text stands for in the field, none where it is empty.
pub fn value_of(alloc: Global, setup: &Setup, field: FieldNo, text: &str) -> Result<Value, Fault> {
    if text.is_empty() {
        return Ok(Value::Empty);
    }
    match setup.value_of(alloc, field, text)? {
        Some(value) => Ok(value),
        None => Err(Fault::NoRow),
    }
}
