// The external id of a new issue, and the users whom a call names.
ghost use Rattle.std.specs.Prelude.{◌≡◌, codes, IfOk};
ghost use Rattle.serde_json.specs.View.{view, members_view};
ghost use Rattle.call_lines.specs.Named.{external_given, external_if_there, few_of};
ghost use Rattle.call_lines.specs.Named.{names_given, names_at};
ghost use Rattle.call_lines.specs.Named.{few_fields_of, fields_given, fields_if_there};
ghost use Rattle.call_lines.specs.Taken.{object_of, without};

use crate::given::texts_of;
use crate::taken::{take, text_of};
use external_ids::is_external;
use field_values::{Memory, Names, Text};
use serde_json::{Map, Value};
use std::alloc::Global;
use tracker_calls::{MOST_FIELDS, MOST_MEMBERS};

/// Takes the member `external` out, which may be absent; `None` where it isn't of its form.
pub(crate) fn take_external(members: &mut Map<String, Value>) -> Option<Option<Text>>
    ensures external { result ≡ external_if_there (object_of members.old) }
    ensures left { members_view members.new.entries
        ≡ without (codes "external") (members_view members.old.entries) }
{
    match take(members, "external") {
        Some(value) => external_given(value),
        None => Some(None),
    }
}

fn external_given(value: Value) -> Option<Option<Text>>
    ensures { result ≡ external_given (view value) }
{
    let text = text_of(value)?;
    if is_external(text.as_str()) {
        Some(Some(text))
    } else {
        None
    }
}

/// Takes the member of that name out, and the texts that it has; `None` where it isn't there, is no array, or has
/// something else or too many of them.
pub(crate) fn take_names(
    alloc: Global,
    members: &mut Map<String, Value>,
    name: &str,
) -> Result<Option<Names>, Memory>
    ensures names { IfOk result (λ names. names ≡ names_at name.now (object_of members.old)) }
    ensures left { members_view members.new.entries
        ≡ without name.now (members_view members.old.entries) }
{
    match take(members, name) {
        Some(value) => names_given(alloc, value),
        None => Ok(None),
    }
}

fn names_given(alloc: Global, value: Value) -> Result<Option<Names>, Memory>
    ensures { IfOk result (λ names. names ≡ names_given (view value)) }
{
    match value {
        Value::Array(items) => {
            let texts = texts_of(alloc, items)?;
            Ok(few_of(texts))
        }
        _ => Ok(None),
    }
}

fn few_of(texts: Option<Names>) -> Option<Names>
    ensures { result ≡ few_of texts }
{
    let names = texts?;
    if names.as_slice().len() <= MOST_MEMBERS {
        Some(names)
    } else {
        None
    }
}

/// Takes the member `fields` out, which may be absent, and the texts that it has; `None` where it is no array, or has something
/// else or too many of them.
pub(crate) fn take_fields(
    alloc: Global,
    members: &mut Map<String, Value>,
) -> Result<Option<Option<Names>>, Memory>
    ensures fields { IfOk result (λ fields. fields ≡ fields_if_there (object_of members.old)) }
    ensures left { members_view members.new.entries
        ≡ without (codes "fields") (members_view members.old.entries) }
{
    match take(members, "fields") {
        Some(value) => fields_given(alloc, value),
        None => Ok(Some(None)),
    }
}

fn fields_given(alloc: Global, value: Value) -> Result<Option<Option<Names>>, Memory>
    ensures { IfOk result (λ fields. fields ≡ fields_given (view value)) }
{
    match value {
        Value::Array(items) => {
            let texts = texts_of(alloc, items)?;
            Ok(few_fields_of(texts))
        }
        _ => Ok(None),
    }
}

fn few_fields_of(texts: Option<Names>) -> Option<Option<Names>>
    ensures { result ≡ few_fields_of texts }
{
    let names = texts?;
    if names.as_slice().len() <= MOST_FIELDS {
        Some(Some(names))
    } else {
        None
    }
}
