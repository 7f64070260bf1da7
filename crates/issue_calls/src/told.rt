// Values as answers tell them.
ghost use Rattle.std.specs.Prelude.{◌≡◌, IfOk};
ghost use Rattle.fields.specs.Naming.{name_at};
ghost use Rattle.fields.specs.SetupParts.{parts, names_in};
ghost use Rattle.tracker_machine.specs.Show.{shown_value};
ghost use Rattle.tracker_machine.specs.Tracker.{Holds};

use crate::spelled::{choice_name, name_at};
use field_forms::value_text::chosen_names;
use fields::{FieldNo, Memory, Setup, UserNo, Value};
use std::alloc::Global;
use tracker_calls::{Shown, ToldText};

/// The name of a user.
pub fn user_name(alloc: Global, setup: &Setup, user: UserNo) -> Result<ToldText, Memory>
    ensures { IfOk result (λ text. text ≡ name_at setup.now.users user.0) }
{
    ToldText::copy_of(alloc, name_at(setup.users.as_slice(), user.0))
}

/// A value as it is told; nothing where it is empty.
pub fn shown_value(
    alloc: Global,
    setup: &Setup,
    field: FieldNo,
    value: &Value,
) -> Result<Option<Shown>, Memory>
    requires { Holds (names_in (parts setup.now)) field value.now }
    ensures { IfOk result (λ o. o ≡ shown_value (names_in (parts setup.now)) field.0 value.now) }
{
    match value {
        Value::Empty => Ok(None),
        Value::Text(text) => Ok(Some(Shown::Text(ToldText::copy_of(alloc, text.as_str())?))),
        Value::Number(_) => Ok(Some(Shown::Text(ToldText::of(setup.text_of(
            alloc, field, value,
        )?)))),
        Value::Choice(choice) => Ok(Some(Shown::Text(ToldText::copy_of(
            alloc,
            choice_name(setup, field, *choice),
        )?))),
        Value::User(user) => Ok(Some(Shown::Text(user_name(alloc, setup, *user)?))),
        Value::Date(_) => Ok(Some(Shown::Text(ToldText::of(setup.text_of(alloc, field, value)?)))),
        Value::Set(choices) => Ok(Some(Shown::List(chosen_names(
            alloc,
            setup.versions.as_slice(),
            choices.as_slice(),
        )?))),
        Value::Labels(labels) => Ok(Some(Shown::List(labels.copy(alloc)?))),
        Value::Sprint(sprint) => Ok(Some(Shown::Number(sprint.0))),
    }
}
