// What a value has that another hasn't.
ghost use Rattle.std.specs.Prelude.{◌≡◌, ◌&&◌, not};
ghost use Rattle.std.specs.List.{list_any};
ghost use Rattle.std.specs.Str.{bytes_eq};
ghost use Rattle.field_values.specs.declared.value.Value.{Value};
ghost use Rattle.jql_meaning.specs.Surroundings.{surroundings_of};
ghost use Rattle.jql_meaning.specs.Naming.{names, names_choice, names_text, has_named, some_value, is_same};
ghost use Rattle.jql_meaning.specs.Past.{loses};

use field_values::{ChoiceNo, Text, Value};
use jql_bound::{Context, Operand};
use jql_present::{has_value, is_named, names_choice, names_text};

/// Whether the field's value has one that an operand names.
pub fn has_named(context: &Context, operands: &[Operand], value: &Value) -> bool
    ensures { result ≡ has_named (surroundings_of context.now) operands.now value.now }
{
    operands
        .iter()
        .any(|operand| has_value(context, operand, value))
}

/// Whether the first value has one that an operand names and that the second hasn't.
pub fn loses(context: &Context, operands: &[Operand], from: &Value, to: &Value) -> bool
    ensures { result ≡ loses (surroundings_of context.now) operands.now from.now to.now }
{
    operands
        .iter()
        .any(|operand| loses_one(context, operand, from, to))
}

// The same of one operand.
fn loses_one(context: &Context, operand: &Operand, from: &Value, to: &Value) -> bool
    ensures { result ≡ some_value (λ v. names (surroundings_of context.now) operand.now v
        && not (some_value (is_same v) to.now)) from.now }
{
    match from {
        Value::Set(choices) => loses_choice(operand, choices.as_slice(), to),
        Value::Labels(labels) => loses_text(operand, labels.as_slice(), to),
        _ => is_named(context, operand, from) && !has_one(to, from),
    }
}

fn loses_choice(operand: &Operand, choices: &[ChoiceNo], to: &Value) -> bool
    ensures { result ≡ list_any (λ choice. names_choice operand.now choice
        && not (some_value (is_same (Value.Choice choice)) to.now)) choices.now }
{
    choices.iter().any(|choice| names_choice(operand, *choice)
        && !has_one(to, &Value::Choice(*choice)))
}

fn loses_text(operand: &Operand, texts: &[Text], to: &Value) -> bool
    ensures { result ≡ list_any (λ text. names_text operand.now text
        && not (some_value (is_same (Value.Text text)) to.now)) texts.now }
{
    texts
        .iter()
        .any(|text| names_text(operand, text) && !has_text(to, text))
}

// Whether the value has that one, which is none of several.
fn has_one(value: &Value, one: &Value) -> bool
    ensures { result ≡ some_value (is_same one.now) value.now }
{
    match value {
        Value::Set(choices) => is_among(one, choices.as_slice()),
        Value::Labels(labels) => is_among_texts(one, labels.as_slice()),
        _ => is_same(one, value),
    }
}

fn is_among(one: &Value, choices: &[ChoiceNo]) -> bool
    ensures { result ≡ list_any (λ choice. is_same one.now (Value.Choice choice)) choices.now }
{
    choices.iter().any(|choice| is_choice(one, *choice))
}

fn is_among_texts(one: &Value, texts: &[Text]) -> bool
    ensures { result ≡ list_any (λ text. is_same one.now (Value.Text text)) texts.now }
{
    texts.iter().any(|text| is_text(one, text))
}

fn is_choice(one: &Value, choice: ChoiceNo) -> bool
    ensures { result ≡ is_same one.now (Value.Choice choice) }
{
    match one {
        Value::Choice(other) => other.0 == choice.0,
        _ => false,
    }
}

fn is_text(one: &Value, text: &Text) -> bool
    ensures { result ≡ is_same one.now (Value.Text text.now) }
{
    match one {
        Value::Text(other) => other.as_str() == text.as_str(),
        _ => false,
    }
}

fn is_same(one: &Value, other: &Value) -> bool
    ensures { result ≡ is_same one.now other.now }
{
    match (one, other) {
        (Value::Empty, Value::Empty) => true,
        (Value::Text(one), Value::Text(other)) => one.as_str() == other.as_str(),
        (Value::Number(one), Value::Number(other)) => *one == *other,
        (Value::Choice(one), Value::Choice(other)) => one.0 == other.0,
        (Value::User(one), Value::User(other)) => one.0 == other.0,
        (Value::Date(one), Value::Date(other)) => one.0 == other.0,
        (Value::Sprint(one), Value::Sprint(other)) => one.0 == other.0,
        _ => false,
    }
}

#[tactic(auto, using(crate::proofs::Several::none_passes))]
fn has_text(value: &Value, text: &Text) -> bool
    ensures { result ≡ some_value (is_same (Value.Text text.now)) value.now }
{
    match value {
        Value::Text(other) => text.as_str() == other.as_str(),
        Value::Labels(labels) => has_same_text(labels.as_slice(), text),
        Value::Set(_) => false,
        Value::Empty
        | Value::Number(_)
        | Value::Choice(_)
        | Value::User(_)
        | Value::Date(_)
        | Value::Sprint(_) => false,
    }
}

fn has_same_text(texts: &[Text], text: &Text) -> bool
    ensures { result ≡ list_any (λ other. bytes_eq text.now other) texts.now }
{
    texts.iter().any(|other| text.as_str() == other.as_str())
}
