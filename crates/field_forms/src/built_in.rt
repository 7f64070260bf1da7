// The names of the fields that every tracker has, and the other words that stand for a field in a query.
ghost use Rattle.std.specs.Prelude.{◌≡◌};
ghost use Rattle.field_forms.specs.Names.{is_among};
ghost use Rattle.field_forms.specs.BuiltIn.{field_names, query_words, is_field_word, built_in_no};

use crate::name_form::is_same_name;
use field_values::numbers::FieldNo;

fn is_field_name(name: &str) -> bool
    ensures { result ≡ is_among field_names name.now }
{
    is_same_name("type", name)
        || is_same_name("summary", name)
        || is_same_name("description", name)
        || is_same_name("status", name)
        || is_same_name("assignee", name)
        || is_same_name("reporter", name)
        || is_same_name("priority", name)
        || is_same_name("resolution", name)
        || is_same_name("fixVersion", name)
        || is_same_name("labels", name)
        || is_same_name("due", name)
        || is_same_name("points", name)
        || is_same_name("sprint", name)
}

fn is_query_word(name: &str) -> bool
    ensures { result ≡ is_among query_words name.now }
{
    is_same_name("issuetype", name)
        || is_same_name("duedate", name)
        || is_same_name("project", name)
        || is_same_name("key", name)
        || is_same_name("issue", name)
        || is_same_name("issuekey", name)
        || is_same_name("statusCategory", name)
        || is_same_name("created", name)
        || is_same_name("updated", name)
        || is_same_name("rank", name)
}

/// Whether the name is that of a field which every tracker has, or another word for a field.
pub(crate) fn is_field_word(name: &str) -> bool
    ensures { result ≡ is_field_word name.now }
{
    is_field_name(name) || is_query_word(name)
}

/// The number of the field of that name, if every tracker has it.
pub fn built_in_no(name: &str) -> Option<u16>
    ensures { result ≡ built_in_no name.now }
{
    if is_same_name("type", name) {
        Some(FieldNo::TYPE.0)
    } else if is_same_name("summary", name) {
        Some(FieldNo::SUMMARY.0)
    } else if is_same_name("description", name) {
        Some(FieldNo::DESCRIPTION.0)
    } else if is_same_name("status", name) {
        Some(FieldNo::STATUS.0)
    } else if is_same_name("assignee", name) {
        Some(FieldNo::ASSIGNEE.0)
    } else if is_same_name("reporter", name) {
        Some(FieldNo::REPORTER.0)
    } else if is_same_name("priority", name) {
        Some(FieldNo::PRIORITY.0)
    } else if is_same_name("resolution", name) {
        Some(FieldNo::RESOLUTION.0)
    } else if is_same_name("fixVersion", name) {
        Some(FieldNo::FIX_VERSION.0)
    } else if is_same_name("labels", name) {
        Some(FieldNo::LABELS.0)
    } else if is_same_name("due", name) {
        Some(FieldNo::DUE.0)
    } else if is_same_name("points", name) {
        Some(FieldNo::POINTS.0)
    } else if is_same_name("sprint", name) {
        Some(FieldNo::SPRINT.0)
    } else {
        None
    }
}
