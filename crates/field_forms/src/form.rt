// What a field may hold, and the values that texts stand for.
ghost use Rattle.std.specs.Prelude.{◌≡◌, ◌≤◌, ◌<◌, ◌||◌, ◌==◌, [], length, IfOk, OnOk, IfSome};
ghost use Rattle.std.specs.Prelude.{position, nat_le, not, Some};
ghost use Rattle.std.specs.List.{list_all, list_any};
ghost use Rattle.std.specs.Str.{bytes_eq};
ghost use Rattle.field_forms.specs.Names.{is_among};
ghost use Rattle.field_forms.specs.Values.{is_line, is_prose, is_label, is_before, place_for};
ghost use Rattle.field_forms.specs.Values.{with_label, with_labels, are_labels, labels_value};
ghost use Rattle.field_forms.specs.Values.{chosen, set_value, sprint_of, points_of, set_in};
ghost use Rattle.field_forms.specs.Values.{label_list_of, value_in, listed_set, listed_labels};
ghost use Rattle.field_forms.specs.Values.{listed_in};

use crate::name_form::{has_controls, is_among, place_of};
use crate::number_text::{is_numeral, number_of};
use crate::text_list::texts_in;
use civil_dates::day_of;
use field_values::digits::value_of_digits;
use field_values::memory::Memory;
use field_values::names::Names;
use field_values::numbers::{ChoiceNo, Day, SprintNo, UserNo};
use field_values::sequence::Sequence;
use field_values::text::Text;
use field_values::value::Value;
use std::alloc::Global;

// Most issues have no more labels.
const FEW: usize = 4;

/// What a field holds, and the limits of it.
#[derive(Clone, Copy)]
pub enum Form {
    /// A text of at most so many bytes on one line.
    Line(usize),
    /// A text of at most so many bytes, perhaps with tabs and line feeds.
    Prose(usize),
    Number,
    /// A number that isn't negative.
    Points,
    Choice,
    User,
    Set,
    Labels,
    Date,
    Sprint,
}

fn has_line_bytes(bytes: &[u8]) -> bool
    ensures { result ≡ list_all (λ b. nat_le 32 b) bytes.now }
{
    bytes.iter().all(|byte| 32 <= *byte)
}

fn has_prose_bytes(bytes: &[u8]) -> bool
    ensures { result ≡ list_all (λ b. nat_le 32 b || (b == 9) || (b == 10)) bytes.now }
{
    bytes
        .iter()
        .all(|byte| 32 <= *byte || *byte == 9 || *byte == 10)
}

pub(crate) fn is_line(most: usize, text: &str) -> bool
    ensures { result ≡ is_line most text.now }
{
    1 <= text.len() && text.len() <= most && has_line_bytes(text.as_bytes())
}

pub(crate) fn is_prose(most: usize, text: &str) -> bool
    ensures { result ≡ is_prose most text.now }
{
    1 <= text.len() && text.len() <= most && has_prose_bytes(text.as_bytes())
}

fn has_spaces(bytes: &[u8]) -> bool
    ensures { result ≡ list_any (λ b. b == 32) bytes.now }
{
    bytes.iter().any(|byte| *byte == 32)
}

pub(crate) fn is_label(text: &str) -> bool
    ensures { result ≡ is_label text.now }
{
    1 <= text.len() && text.len() <= 64 && !has_spaces(text.as_bytes()) && !has_controls(text)
}

fn each_is_label(texts: &[Text]) -> bool
    ensures { result ≡ list_all is_label texts.now }
{
    texts.iter().all(|text| is_label(text.as_str()))
}

fn are_labels(texts: &[Text]) -> bool
    ensures { result ≡ are_labels texts.now }
{
    texts.len() <= 16 && each_is_label(texts)
}

fn has_text(texts: &[Text], text: &str) -> bool
    ensures { result ≡ list_any (λ other. bytes_eq other text.now) texts.now }
{
    texts.iter().any(|other| other.as_str() == text)
}

/// Whether the one stands before the other in the order of their bytes.
pub fn is_before(one: &str, other: &str) -> bool
    ensures { result ≡ is_before one.now other.now }
{
    one < other
}

fn first_not_before(labels: &[Text], label: &str) -> Option<usize>
    ensures place { result ≡ position (λ other. not (is_before other label.now)) labels.now }
    ensures within { IfSome result (λ place. place < length labels.now) }
{
    labels
        .iter()
        .position(|other| !is_before(other.as_str(), label))
}

/// The place of the first label that isn't before the new one, or the end.
fn place_for(labels: &[Text], label: &str) -> usize
    ensures place { result ≡ place_for labels.now label.now }
    ensures within { result ≤ length labels.now }
{
    match first_not_before(labels, label) {
        Some(place) => place,
        None => labels.len(),
    }
}

/// Puts a label in its place, unless it is there.
fn put_label(alloc: Global, labels: &mut Names, label: &Text) -> Result<(), Memory>
    ensures ok { OnOk result (labels.new ≡ with_label labels.old label.now) }
{
    if has_text(labels.as_slice(), label.as_str()) {
        return Ok(());
    }
    let place = place_for(labels.as_slice(), label.as_str());
    labels.insert(place, label.copy(alloc)?)?;
    Ok(())
}

/// The labels of these texts in the order of their bytes, each once. A few of them have no room for more, since a value stays.
fn labels_of(alloc: Global, texts: &[Text]) -> Result<Names, Memory>
    ensures { IfOk result (λ labels. labels ≡ with_labels [] texts.now) }
{
    let mut labels = Names::with_capacity(alloc, texts.len().min(FEW))?;
    for text in texts {
        put_label(alloc, &mut labels, text)?;
    }
    Ok(labels)
}

fn labels_value(labels: Names) -> Value
    ensures { result ≡ labels_value labels }
{
    if labels.as_slice().is_empty() {
        Value::Empty
    } else {
        Value::Labels(labels)
    }
}

fn are_known(names: &[Text], texts: &[Text]) -> bool
    ensures { result ≡ list_all (is_among names.now) texts.now }
{
    texts.iter().all(|text| is_among(names, text.as_str()))
}

/// The places of those names that are among the texts.
fn chosen(alloc: Global, names: &[Text], texts: &[Text]) -> Result<Sequence<ChoiceNo>, Memory>
    requires { length names.now ≤ 65_535 }
    ensures { IfOk result (λ nos. nos ≡ chosen 0 names.now texts.now) }
{
    let mut nos = Sequence::new(alloc);
    for (place, name) in names.iter().enumerate() {
        if is_among(texts, name.as_str()) {
            nos.push(ChoiceNo(place as u16))?;
        }
    }
    Ok(nos)
}

/// The set of these choices, or no value where there are none.
pub fn set_value(nos: Sequence<ChoiceNo>) -> Value
    ensures { result ≡ set_value nos }
{
    if nos.as_slice().is_empty() {
        Value::Empty
    } else {
        Value::Set(nos)
    }
}

fn sprint_of(text: &str) -> Option<u32>
    ensures { result ≡ sprint_of text.now }
{
    let digits = text.as_bytes();
    if !is_numeral(10, digits) || (digits[0] == 48 && digits.len() != 1) {
        return None;
    }
    let number = value_of_digits(digits);
    if number <= 4_294_967_295 {
        Some(number as u32)
    } else {
        None
    }
}

fn text_value(alloc: Global, text: &str) -> Result<Option<Value>, Memory>
    ensures { IfOk result (λ value. value ≡ Some (Value.Text text.now)) }
{
    Ok(Some(Value::Text(Text::copy_of(alloc, text)?)))
}

fn points_of(text: &str) -> Option<Value>
    ensures { result ≡ points_of text.now }
{
    match number_of(text) {
        Some(number) if 0 <= number => Some(Value::Number(number)),
        _ => None,
    }
}

fn set_in(alloc: Global, names: &[Text], text: &str) -> Result<Option<Value>, Memory>
    requires { length names.now ≤ 65_535 }
    ensures { IfOk result (λ value. value ≡ set_in names.now text.now) }
{
    let Some(texts) = texts_in(alloc, text)? else {
        return Ok(None);
    };
    listed_set(alloc, names, texts.as_slice())
}

/// The set of the choices that the texts name.
fn listed_set(alloc: Global, names: &[Text], texts: &[Text]) -> Result<Option<Value>, Memory>
    requires { length names.now ≤ 65_535 }
    ensures { IfOk result (λ value. value ≡ listed_set names.now texts.now) }
{
    if !are_known(names, texts) {
        return Ok(None);
    }
    Ok(Some(set_value(chosen(alloc, names, texts)?)))
}

fn label_list_of(alloc: Global, text: &str) -> Result<Option<Value>, Memory>
    ensures { IfOk result (λ value. value ≡ label_list_of text.now) }
{
    let Some(texts) = texts_in(alloc, text)? else {
        return Ok(None);
    };
    listed_labels(alloc, texts.as_slice())
}

/// The labels that the texts are.
fn listed_labels(alloc: Global, texts: &[Text]) -> Result<Option<Value>, Memory>
    ensures { IfOk result (λ value. value ≡ listed_labels texts.now) }
{
    if !are_labels(texts) {
        return Ok(None);
    }
    Ok(Some(labels_value(labels_of(alloc, texts)?)))
}

/// The value that a list of texts stands for in a field of this form.
pub(crate) fn listed_in(
    alloc: Global,
    form: Form,
    names: &[Text],
    texts: &[Text],
) -> Result<Option<Value>, Memory>
    requires { length names.now ≤ 65_535 }
    ensures { IfOk result (λ value. value ≡ listed_in form names.now texts.now) }
{
    match form {
        Form::Set => listed_set(alloc, names, texts),
        Form::Labels => listed_labels(alloc, texts),
        _ => Ok(None),
    }
}

/// The value that a text stands for in a field of this form; the names are those that it may name.
#[tactic(auto, unfolding(crate::specs::Values::value_in))]
pub(crate) fn value_in(
    alloc: Global,
    form: Form,
    names: &[Text],
    text: &str,
) -> Result<Option<Value>, Memory>
    requires { length names.now ≤ 65_535 }
    ensures { IfOk result (λ value. value ≡ value_in form names.now text.now) }
{
    match form {
        Form::Line(most) if is_line(most, text) => text_value(alloc, text),
        Form::Prose(most) if is_prose(most, text) => text_value(alloc, text),
        Form::Line(_) | Form::Prose(_) => Ok(None),
        Form::Number => Ok(number_of(text).map(Value::Number)),
        Form::Points => Ok(points_of(text)),
        Form::Choice => match place_of(names, text) {
            Some(place) => Ok(Some(Value::Choice(ChoiceNo(place as u16)))),
            None => Ok(None),
        },
        Form::User => match place_of(names, text) {
            Some(place) => Ok(Some(Value::User(UserNo(place as u16)))),
            None => Ok(None),
        },
        Form::Set => set_in(alloc, names, text),
        Form::Labels => label_list_of(alloc, text),
        Form::Date => match day_of(text) {
            Some(day) => Ok(Some(Value::Date(Day(day)))),
            None => Ok(None),
        },
        Form::Sprint => match sprint_of(text) {
            Some(number) => Ok(Some(Value::Sprint(SprintNo(number)))),
            None => Ok(None),
        },
    }
}
