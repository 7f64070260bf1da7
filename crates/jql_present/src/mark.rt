// The mark that a comparison looks at.
ghost use Rattle.std.specs.Prelude.{◌≡◌};
ghost use Rattle.jql_meaning.specs.Surroundings.{surroundings_of};
ghost use Rattle.jql_meaning.specs.Marks.{subject_mark};

use crate::compare::midnight_of;
use change_history::Issue;
use field_values::Value;
use jql_bound::{Context, Subject};

/// The second with which dates are compared: the midnight of the field's date, or the moment; `None` where it is neither.
pub fn mark_of(context: &Context, issue: &Issue, subject: Subject) -> Option<i64>
    ensures { result ≡ subject_mark (surroundings_of context.now) issue.now.history subject }
{
    match subject {
        Subject::Field(field) => match issue.value(field) {
            Value::Date(day) => Some(midnight_of(context, *day)),
            _ => None,
        },
        Subject::Project | Subject::Key => None,
        Subject::Created => Some(issue.created().seconds() as i64),
        Subject::Updated => Some(issue.updated().seconds() as i64),
    }
}
