// Which values an operand names.
ghost use Rattle.std.specs.Prelude.{◌≡◌, ◌==◌};
ghost use Rattle.std.specs.List.{list_any};
ghost use Rattle.jql_meaning.specs.Surroundings.{surroundings_of, members_of};
ghost use Rattle.jql_meaning.specs.Naming.{names, names_text, names_number, names_choice, names_user, names_sprint, some_value};

use field_values::membership::is_member;
use field_values::{ChoiceNo, GroupNo, SprintNo, Text, UserNo, Value};
use jql_bound::{Context, Operand};

/// Whether the operand names one of the values that the field's value has.
pub fn has_value(context: &Context, operand: &Operand, value: &Value) -> bool
    ensures { result ≡ some_value (names (surroundings_of context.now) operand.now) value.now }
{
    match value {
        Value::Set(choices) => names_one_choice(operand, choices.as_slice()),
        Value::Labels(labels) => names_one_text(operand, labels.as_slice()),
        _ => is_named(context, operand, value),
    }
}

/// Whether the operand names the value itself.
pub fn is_named(context: &Context, operand: &Operand, value: &Value) -> bool
    ensures { result ≡ names (surroundings_of context.now) operand.now value.now }
{
    match value {
        Value::Empty => matches!(operand, Operand::Empty),
        Value::Text(text) => names_text(operand, text),
        Value::Number(number) => names_number(operand, *number),
        Value::Choice(choice) => names_choice(operand, *choice),
        Value::User(user) => names_user(context, operand, *user),
        Value::Sprint(sprint) => names_sprint(operand, *sprint),
        Value::Date(_) | Value::Set(_) | Value::Labels(_) => false,
    }
}

/// Whether the operand is that label.
pub fn names_text(operand: &Operand, text: &Text) -> bool
    ensures { result ≡ names_text operand.now text.now }
{
    match operand {
        Operand::Label(label) => text.as_str() == label.as_str(),
        _ => false,
    }
}

fn names_number(operand: &Operand, number: i64) -> bool
    ensures { result ≡ names_number operand.now number }
{
    match operand {
        Operand::Number(other) => number == *other,
        _ => false,
    }
}

/// Whether the operand is that choice, or a category of statuses that it is in.
pub fn names_choice(operand: &Operand, choice: ChoiceNo) -> bool
    ensures { result ≡ names_choice operand.now choice }
{
    match operand {
        Operand::Choice(other) => choice.0 == other.0,
        Operand::Statuses(statuses) => has_choice(statuses.as_slice(), choice),
        _ => false,
    }
}

/// Whether the operand is that user, or a group that the user is in.
pub fn names_user(context: &Context, operand: &Operand, user: UserNo) -> bool
    ensures { result ≡ names_user (surroundings_of context.now) operand.now user }
{
    match operand {
        Operand::User(other) => user.0 == other.0,
        Operand::MembersOf(group) => is_member(members_of(context, *group), user),
        _ => false,
    }
}

fn names_sprint(operand: &Operand, sprint: SprintNo) -> bool
    ensures { result ≡ names_sprint operand.now sprint }
{
    match operand {
        Operand::Sprint(other) => sprint.0 == other.0,
        _ => false,
    }
}

fn names_one_choice(operand: &Operand, choices: &[ChoiceNo]) -> bool
    ensures { result ≡ list_any (λ choice. names_choice operand.now choice) choices.now }
{
    choices.iter().any(|choice| names_choice(operand, *choice))
}

fn names_one_text(operand: &Operand, texts: &[Text]) -> bool
    ensures { result ≡ list_any (λ text. names_text operand.now text) texts.now }
{
    texts.iter().any(|text| names_text(operand, text))
}

fn has_choice(choices: &[ChoiceNo], choice: ChoiceNo) -> bool
    ensures { result ≡ list_any (λ other. other.0 == choice.0) choices.now }
{
    choices.iter().any(|other| other.0 == choice.0)
}

// The users of a group.
fn members_of(context: &Context, group: GroupNo) -> &[UserNo]
    ensures { result.now ≡ members_of (surroundings_of context.now) group }
{
    if group.0 == 0 {
        return &[];
    }
    match context.members.get(usize::from(group.0) - 1) {
        Some(members) => members.as_slice(),
        None => &[],
    }
}
