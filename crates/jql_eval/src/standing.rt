// What decides where an issue stands in a list.
ghost use Rattle.std.specs.Prelude.{◌≡◌, ◌==◌, unwrap_or, slice_get, neg_ℤ, pos, [], if◌then◌else◌};
ghost use Rattle.std.specs.List.{after_first};
ghost use Rattle.fields.specs.SetupParts.{parts};
ghost use Rattle.field_values.specs.Parts.{Parts};
ghost use Rattle.field_values.specs.declared.numbers.FieldNo.{FieldNo};
ghost use Rattle.change_history.specs.History.{present};
ghost use Rattle.change_history.specs.Small.{small_of};
ghost use Rattle.change_history.specs.declared.small.Small.{Small};
ghost use Rattle.change_history.specs.Key.{project_of};
ghost use Rattle.jql_meaning.specs.Order.{standing, standing_cmp, value_standing, category_standing, category_place, text_cmp, kind_place, key};
ghost use Rattle.jql_eval.specs.Standings.{key_standing, seen};

use crate::number::{number_cmp, number_in};
use change_history::{Issue, Small};
use field_values::{Category, ChoiceNo, FieldNo, UserNo, Value};
use fields::Setup;
use jql_bound::Subject;
use std::cmp::Ordering;

/// What decides where an issue stands: a size, a text, the project and the number of its key, or nothing. It is small, so
/// that lists are put in order by standings that are worked out once an issue.
#[derive(Clone, Copy)]
pub enum Standing<'a> {
    Size(i64),
    Text(&'a [u8]),
    /// A key's project, and its number.
    Key(&'a [u8], u32),
    /// A whole key, the number of which takes more than 32 bits.
    LongKey(&'a str),
    Nothing,
}

/// What decides where the issue stands by a subject.
pub fn standing_of<'a>(setup: &'a Setup, issue: &'a Issue, subject: Subject) -> Standing<'a>
    ensures { seen result ≡ standing (parts setup.now) issue.now.history subject }
{
    match subject {
        Subject::Field(field) => field_standing(setup, field, issue),
        Subject::Project => Standing::Text(key_parts(issue.key().as_str()).0),
        Subject::Key => key_standing(issue.key().as_str()),
        Subject::Created => Standing::Size(issue.created().seconds() as i64),
        Subject::Updated => Standing::Size(issue.updated().seconds() as i64),
    }
}

/// What decides by the category of the status.
pub fn category_standing<'a>(setup: &'a Setup, status: &Value) -> Standing<'a>
    ensures { seen result ≡ category_standing (parts setup.now) status.now }
{
    match status {
        Value::Choice(choice) => match setup.status.as_slice().get(usize::from(choice.0)) {
            Some(status) => Standing::Size(category_place(status.category)),
            None => Standing::Nothing,
        },
        _ => Standing::Nothing,
    }
}

fn category_place(category: Category) -> i64
    ensures { result ≡ category_place category }
{
    match category {
        Category::ToDo => 0,
        Category::InProgress => 1,
        Category::Done => 2,
    }
}

fn field_standing<'a>(setup: &'a Setup, field: FieldNo, issue: &'a Issue) -> Standing<'a>
    ensures { seen result
        ≡ value_standing (parts setup.now) field (present issue.now.history field) }
{
    match issue.small(field) {
        Small::Empty => Standing::Nothing,
        Small::Number(number) => Standing::Size(number),
        Small::Choice(choice) => Standing::Size(choice_place(field, choice)),
        Small::User(user) => Standing::Text(user_name(setup, user)),
        Small::Date(day) => Standing::Size(i64::from(day.0)),
        Small::Sprint(sprint) => Standing::Size(i64::from(sprint.0)),
        Small::Apart => apart_standing(issue.value(field)),
    }
}

// By a value that takes memory: texts alone have an order.
fn apart_standing(value: &Value) -> Standing<'_>
    requires { small_of value.now ≡ Small.Apart }
    ensures { (setup : Parts) (field : FieldNo)
        → seen result ≡ value_standing setup field value.now }
{
    match value {
        Value::Text(text) => Standing::Text(text.as_str().as_bytes()),
        Value::Set(_) | Value::Labels(_) => Standing::Nothing,
        Value::Empty
        | Value::Number(_)
        | Value::Choice(_)
        | Value::User(_)
        | Value::Date(_)
        | Value::Sprint(_) => unreachable!(),
    }
}

// Choices stand as in the setup, and priorities the other way round.
fn choice_place(field: FieldNo, choice: ChoiceNo) -> i64
    ensures { result
        ≡ if field.0 == FieldNo.PRIORITY.0 then neg_ℤ (pos choice.0) else pos choice.0 }
{
    let place = i64::from(choice.0);
    if field.0 == FieldNo::PRIORITY.0 {
        -place
    } else {
        place
    }
}

// The bytes of a user's name, and none of a user who isn't there.
fn user_name(setup: &Setup, user: UserNo) -> &[u8]
    ensures { result.now ≡ unwrap_or (slice_get (parts setup.now).users user.0) [] }
{
    match setup.users.as_slice().get(usize::from(user.0)) {
        Some(name) => name.as_str().as_bytes(),
        None => &[],
    }
}

// By the key: its project, and its number, which is read once.
fn key_standing(name: &str) -> Standing<'_>
    ensures { seen result ≡ key_standing name.now }
{
    let (project, digits) = key_parts(name);
    match u32::try_from(number_in(digits)) {
        Ok(number) => Standing::Key(project, number),
        Err(_) => Standing::LongKey(name),
    }
}

// The project's key before the hyphen, and the number behind it.
#[tactic(auto, using(std::proofs::lemmas::Str::Pattern::split_once_first))]
fn key_parts(name: &str) -> (&[u8], &[u8])
    ensures project { result.0.now ≡ project_of name.now }
    ensures number { result.1.now ≡ after_first (λ byte. byte == 45) name.now }
{
    match name.split_once('-') {
        Some((project, number)) => (project.as_bytes(), number.as_bytes()),
        None => (name.as_bytes(), &[]),
    }
}

/// How two stand to each other: sizes by size, texts by their bytes, keys by the project and then by the number; nothing
/// stands last.
pub fn standing_cmp(one: &Standing<'_>, other: &Standing<'_>) -> Ordering
    ensures { result ≡ standing_cmp (seen one.now) (seen other.now) }
{
    match (one, other) {
        (Standing::Size(one), Standing::Size(other)) => one.cmp(other),
        (Standing::Text(one), Standing::Text(other)) => text_cmp(one, other),
        (Standing::Key(one, number), Standing::Key(other, opposite)) => {
            text_cmp(one, other).then(number.cmp(opposite))
        }
        (Standing::Key(one, number), Standing::LongKey(other)) => to_long_cmp(one, *number, other),
        (Standing::LongKey(one), Standing::Key(other, number)) => {
            to_long_cmp(other, *number, one).reverse()
        }
        (Standing::LongKey(one), Standing::LongKey(other)) => long_cmp(one, other),
        _ => kind_place(one).cmp(&kind_place(other)),
    }
}

fn text_cmp(one: &[u8], other: &[u8]) -> Ordering
    ensures { result ≡ text_cmp one.now other.now }
{
    one.cmp(other)
}

// How a key stands to one with a long number.
fn to_long_cmp(project: &[u8], number: u32, long: &str) -> Ordering
    ensures { result ≡ standing_cmp (key project.now number) (key_standing long.now) }
{
    let (other, digits) = key_parts(long);
    text_cmp(project, other).then(u64::from(number).cmp(&number_in(digits)))
}

// How two keys with long numbers stand to each other.
fn long_cmp(one: &str, other: &str) -> Ordering
    ensures { result ≡ standing_cmp (key_standing one.now) (key_standing other.now) }
{
    let (project, digits) = key_parts(one);
    let (opposing, opposite) = key_parts(other);
    text_cmp(project, opposing).then(number_cmp(digits, opposite))
}

fn kind_place(standing: &Standing<'_>) -> u8
    ensures { result ≡ kind_place (seen standing.now) }
{
    match standing {
        Standing::Size(_) => 0,
        Standing::Text(_) => 1,
        Standing::Key(_, _) | Standing::LongKey(_) => 2,
        Standing::Nothing => 3,
    }
}
