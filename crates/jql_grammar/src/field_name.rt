// The fields that a query may name.
ghost use Rattle.std.specs.Prelude.{◌≡◌, ◌||◌, option_map, codes};
ghost use Rattle.field_forms.specs.Known.{own_field};
ghost use Rattle.relative_dates.specs.Call.{is_named};
ghost use Rattle.jql_grammar.specs.Fields.{held, other_named, later_named, field_in};

use fields::{Field as OwnField, FieldNo, Setup};
use jql_bound::{SortField, Subject};
use jql_syntax::Field;

/// Whether the name is that one, ASCII case ignored.
pub(crate) fn is_named(name: &str, other: &str) -> bool
    ensures { result ≡ is_named name.now other.now }
{
    name.eq_ignore_ascii_case(other)
}

fn held(no: u16) -> SortField
    ensures { result ≡ held no }
{
    SortField::Subject(Subject::Field(FieldNo(no)))
}

fn names_key(name: &str) -> bool
    ensures { result ≡ (is_named name.now (codes "key")
        || (is_named name.now (codes "issue") || is_named name.now (codes "issuekey"))) }
{
    is_named(name, "key") || is_named(name, "issue") || is_named(name, "issuekey")
}

// A second name of a field, or a field that follows from the rest of an issue.
#[tactic(auto, unfolding(crate::specs::Fields::other_named))]
fn other_named(name: &str) -> Option<SortField>
    ensures { result ≡ other_named name.now }
{
    if is_named(name, "issuetype") {
        Some(held(FieldNo::TYPE.0))
    } else if is_named(name, "duedate") {
        Some(held(FieldNo::DUE.0))
    } else if is_named(name, "project") {
        Some(SortField::Subject(Subject::Project))
    } else if names_key(name) {
        Some(SortField::Subject(Subject::Key))
    } else {
        later_named(name)
    }
}

#[tactic(auto, unfolding(crate::specs::Fields::later_named))]
fn later_named(name: &str) -> Option<SortField>
    ensures { result ≡ later_named name.now }
{
    if is_named(name, "created") {
        Some(SortField::Subject(Subject::Created))
    } else if is_named(name, "updated") {
        Some(SortField::Subject(Subject::Updated))
    } else if is_named(name, "statusCategory") {
        Some(SortField::StatusCategory)
    } else if is_named(name, "rank") {
        Some(SortField::Rank)
    } else {
        None
    }
}

/// The setup's own field of that number.
pub(crate) fn own_field(fields: &[OwnField], no: u32) -> Option<&OwnField>
    ensures { option_map (λ f. f.now) result ≡ own_field fields.now no }
{
    fields.iter().find(|field| u32::from(field.number.0) == no)
}

/// The field that a query names.
pub(crate) fn field_in(setup: &Setup, field: &Field) -> Option<SortField>
    ensures { result ≡ field_in setup.now.field field.now }
{
    match field {
        Field::Named(name) => {
            if let Some(other) = other_named(name.as_str()) {
                return Some(other);
            }
            match setup.field_named(name.as_str()) {
                Some(no) => Some(held(no.0)),
                None => None,
            }
        }
        Field::Custom(no) => match own_field(setup.field.as_slice(), *no) {
            Some(field) => Some(held(field.number.0)),
            None => None,
        },
    }
}
