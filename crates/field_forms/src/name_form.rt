// The forms of names.
ghost use Rattle.std.specs.Prelude.{◌≡◌, codes};
ghost use Rattle.std.specs.List.{list_all};
ghost use Rattle.std.specs.Char.{is_control};
ghost use Rattle.std.specs.Int.{is_in_range};
ghost use Rattle.std.specs.Str.{chars, str_eq_ignore_ascii_case};
ghost use Rattle.field_forms.specs.NameForms.{is_numbered_field, has_form};
ghost use Rattle.field_forms.specs.Names.{has_controls, is_name, is_title, is_user_name};
ghost use Rattle.field_forms.specs.Names.{is_user_byte, is_project_key, place_named, is_among};

use crate::built_in::is_field_word;
use field_values::digits::are_digits;
use field_values::text::Text;

/// What a name is of, which says what form it has.
#[derive(Clone, Copy)]
pub enum NameForm {
    User,
    Plain,
    Resolution,
    ProjectKey,
    OwnField,
    AnyText,
}

/// Whether the text has a control character, of U+0000 to U+001F or U+007F to U+009F.
pub(crate) fn has_controls(text: &str) -> bool
    ensures { result ≡ has_controls text.now }
{
    text.chars().any(|c| c.is_control())
}

/// Whether the text has the form of a name: 1 to 60 bytes without control characters.
pub(crate) fn is_name(text: &str) -> bool
    ensures { result ≡ is_name text.now }
{
    1 <= text.len() && text.len() <= 60 && !has_controls(text)
}

/// Whether the text has the form of a name of a saved filter, a board or a sprint: 1 to 100 bytes without control characters.
pub fn is_title(text: &str) -> bool
    ensures { result ≡ is_title text.now }
{
    1 <= text.len() && text.len() <= 100 && !has_controls(text)
}

fn is_user_byte(byte: u8) -> bool
    ensures { result ≡ is_user_byte byte }
{
    matches!(byte, b'a'..=b'z' | b'0'..=b'9' | b'.' | b'_' | b'-')
}

fn has_user_bytes(bytes: &[u8]) -> bool
    ensures { result ≡ list_all is_user_byte bytes.now }
{
    bytes.iter().all(|byte| is_user_byte(*byte))
}

/// Whether the text has the form of a user's name: 1 to 40 of `a-z`, `0-9`, `.`, `_` and `-`.
pub(crate) fn is_user_name(text: &str) -> bool
    ensures { result ≡ is_user_name text.now }
{
    1 <= text.len() && text.len() <= 40 && has_user_bytes(text.as_bytes())
}

fn has_capitals(bytes: &[u8]) -> bool
    ensures { result ≡ list_all (λ byte. is_in_range 65 90 byte) bytes.now }
{
    bytes.iter().all(|byte| 65 <= *byte && *byte <= 90)
}

/// Whether the text has the form of a project's key: 2 to 10 letters `A-Z`.
pub(crate) fn is_project_key(text: &str) -> bool
    ensures { result ≡ is_project_key text.now }
{
    2 <= text.len() && text.len() <= 10 && has_capitals(text.as_bytes())
}

/// Whether two names are the same, ASCII case ignored.
pub(crate) fn is_same_name(one: &str, other: &str) -> bool
    ensures { result ≡ str_eq_ignore_ascii_case one.now other.now }
{
    one.eq_ignore_ascii_case(other)
}

/// The place of the first of that name.
pub fn place_of(names: &[Text], name: &str) -> Option<usize>
    ensures { result ≡ place_named name.now names.now }
{
    names
        .iter()
        .position(|other| is_same_name(other.as_str(), name))
}

/// Whether one of the names is that one.
pub fn is_among(names: &[Text], name: &str) -> bool
    ensures { result ≡ is_among names.now name.now }
{
    names.iter().any(|other| is_same_name(other.as_str(), name))
}

fn begins_numbered(start: &[u8]) -> bool
    ensures { result ≡ str_eq_ignore_ascii_case start.now (codes "cf[") }
{
    start.eq_ignore_ascii_case(b"cf[")
}

/// Whether the name is `cf[`, digits and `]`, ASCII case ignored: a field by its number, as a query writes it.
fn is_numbered_field(name: &str) -> bool
    ensures { result ≡ is_numbered_field name.now }
{
    let bytes = name.as_bytes();
    if bytes.len() < 5 {
        return false;
    }
    let last = bytes.len() - 1;
    begins_numbered(&bytes[..3]) && bytes[last] == b']' && are_digits(&bytes[3..last])
}

/// Whether a text has the form of such a name.
pub fn has_form(form: NameForm, text: &str) -> bool
    ensures { result ≡ has_form form text.now }
{
    match form {
        NameForm::User => is_user_name(text),
        NameForm::Plain => is_name(text),
        NameForm::Resolution => is_name(text) && !is_same_name(text, "Unresolved"),
        NameForm::ProjectKey => is_project_key(text),
        NameForm::OwnField => { is_name(text) && !(is_field_word(text) || is_numbered_field(text)) }
        NameForm::AnyText => true,
    }
}

/// Whether each of the texts has that form.
pub fn all_have_form(form: NameForm, texts: &[Text]) -> bool
    ensures { result ≡ list_all (has_form form) texts.now }
{
    texts.iter().all(|text| has_form(form, text.as_str()))
}
