// What a field is compared with, and by which operators.
ghost use Rattle.std.specs.Prelude.{◌≡◌, IfOk, IfErr};
ghost use Rattle.jql_grammar.specs.Steps.{Stops};
ghost use Rattle.jql_grammar.specs.Kinds.{own_kind, kind_numbered, value_kind_of, column_of, column_in, has_equality, has_order, has_search, history_field};

use crate::fault::{FaultKind, Stop};
use crate::field_name::{field_in, own_field};
use fields::{Field as OwnField, FieldKind, FieldNo, Setup};
use jql_bound::{SortField, Subject};
use jql_syntax::Field;

/// What a field is compared with. Choices and numbers go by the field's number.
#[derive(Clone, Copy, PartialEq, Eq)]
pub(crate) enum ValueKind {
    Text,
    Choice(FieldNo),
    Priority,
    Resolution,
    User,
    Versions,
    Labels,
    Date,
    Number(FieldNo),
    Sprint,
    Project,
    Key,
    Category,
}

/// What a comparison looks at.
#[derive(Clone, Copy, PartialEq, Eq)]
pub(crate) struct Column {
    pub(crate) subject: Subject,
    pub(crate) kind: ValueKind,
}

fn own_kind(field: &OwnField) -> ValueKind
    ensures { result ≡ own_kind field.now }
{
    match field.kind {
        FieldKind::Text => ValueKind::Text,
        FieldKind::Number => ValueKind::Number(field.number),
        FieldKind::Choice => ValueKind::Choice(field.number),
        FieldKind::User => ValueKind::User,
        FieldKind::Date => ValueKind::Date,
    }
}

#[tactic(auto, unfolding(crate::specs::Kinds::kind_numbered))]
fn kind_numbered(fields: &[OwnField], no: FieldNo) -> Option<ValueKind>
    ensures { result ≡ kind_numbered fields.now no }
{
    match no {
        FieldNo::TYPE | FieldNo::STATUS => Some(ValueKind::Choice(no)),
        FieldNo::SUMMARY | FieldNo::DESCRIPTION => Some(ValueKind::Text),
        FieldNo::ASSIGNEE | FieldNo::REPORTER => Some(ValueKind::User),
        FieldNo::PRIORITY => Some(ValueKind::Priority),
        FieldNo::RESOLUTION => Some(ValueKind::Resolution),
        FieldNo::FIX_VERSION => Some(ValueKind::Versions),
        FieldNo::LABELS => Some(ValueKind::Labels),
        FieldNo::DUE => Some(ValueKind::Date),
        FieldNo::POINTS => Some(ValueKind::Number(no)),
        FieldNo::SPRINT => Some(ValueKind::Sprint),
        _ => match own_field(fields, u32::from(no.0)) {
            Some(field) => Some(own_kind(field)),
            None => None,
        },
    }
}

fn value_kind_of(fields: &[OwnField], subject: Subject) -> Option<ValueKind>
    ensures { result ≡ value_kind_of fields.now subject }
{
    match subject {
        Subject::Field(no) => kind_numbered(fields, no),
        Subject::Project => Some(ValueKind::Project),
        Subject::Key => Some(ValueKind::Key),
        Subject::Created | Subject::Updated => Some(ValueKind::Date),
    }
}

fn column_of(fields: &[OwnField], field: SortField) -> Result<Column, Stop>
    ensures ok { IfOk result (λ column. column_of fields.now field ≡ Ok column) }
    ensures err { IfErr result (Stops (column_of fields.now field)) }
{
    match field {
        SortField::Subject(subject) => match value_kind_of(fields, subject) {
            Some(kind) => Ok(Column { subject, kind }),
            None => Err(Stop::At(FaultKind::UnknownField)),
        },
        SortField::StatusCategory => Ok(Column {
            subject: Subject::Field(FieldNo::STATUS),
            kind: ValueKind::Category,
        }),
        SortField::Rank => Err(Stop::At(FaultKind::OperatorNotForField)),
    }
}

/// What a test of the field looks at.
pub(crate) fn column_in(setup: &Setup, field: &Field) -> Result<Column, Stop>
    ensures ok { IfOk result (λ column. column_in setup.now.field field.now ≡ Ok column) }
    ensures err { IfErr result (Stops (column_in setup.now.field field.now)) }
{
    match field_in(setup, field) {
        Some(field) => column_of(setup.field.as_slice(), field),
        None => Err(Stop::At(FaultKind::UnknownField)),
    }
}

impl Column {
    /// Whether the field has `=`, `!=`, IN and NOT IN.
    pub(crate) fn has_equality(&self) -> bool
        ensures { result ≡ has_equality self.now.kind }
    {
        !matches!(self.kind, ValueKind::Text)
    }

    /// Whether the field has `<`, `<=`, `>` and `>=`.
    pub(crate) fn has_order(&self) -> bool
        ensures { result ≡ has_order self.now.kind }
    {
        matches!(
            self.kind,
            ValueKind::Priority | ValueKind::Date | ValueKind::Number(_)
        )
    }

    /// Whether the field has `~` and `!~`.
    pub(crate) fn has_search(&self) -> bool
        ensures { result ≡ has_search self.now.kind }
    {
        matches!(self.kind, ValueKind::Text)
    }

    /// The field, where it has WAS and CHANGED.
    pub(crate) fn history_field(&self) -> Option<FieldNo>
        ensures { result ≡ history_field self.now.kind self.now.subject }
    {
        match (self.kind, self.subject) {
            (ValueKind::Category, _) => None,
            (_, Subject::Field(no))
                if FieldNo::STATUS.0 <= no.0 && no.0 <= FieldNo::FIX_VERSION.0 => Some(no),
            _ => None,
        }
    }
}
