use change_history::{Change, Changes, Issue, Key};
use field_values::{ChoiceNo, FieldNo, IssueNo, Memory, Moment, Text, UserNo, Value};
use std::alloc::Global;

fn summary(alloc: Global) -> Result<Value, Memory> {
    Ok(Value::Text(Text::copy_of(alloc, "Fix login")?))
}

fn values(alloc: Global) -> Result<Changes, Memory> {
    let mut values = Changes::new(alloc);
    values.push(Change {
        field: FieldNo::SUMMARY,
        to: summary(alloc)?,
    })?;
    values.push(Change {
        field: FieldNo::STATUS,
        to: Value::Choice(ChoiceNo(0)),
    })?;
    Ok(values)
}

/// An issue of that key which the first user opened at the first moment as change 1.
pub(crate) fn opened(alloc: Global, project: &str, values: Changes) -> Result<Issue, Memory> {
    let key = Key::of(alloc, project, 1)?;
    Issue::open(
        alloc,
        IssueNo(1),
        key,
        1,
        Moment::first(),
        UserNo(0),
        values,
    )
}

fn tells_its_creation(issue: &Issue) -> bool {
    issue.no().0 == 1
        && issue.key().as_str() == "OPS-1"
        && issue.change() == 1
        && issue.created().seconds() == 0
        && issue.updated().seconds() == 0
        && issue.author().0 == 0
}

fn has_its_values(alloc: Global, issue: &Issue) -> Option<bool> {
    let summary = summary(alloc).ok()?;
    Some(
        issue.value(FieldNo::SUMMARY).is_same(&summary)
            && issue.value(FieldNo::POINTS).is_same(&Value::Empty)
            && issue.opening(FieldNo::SUMMARY).is_same(&summary)
            && issue.opening(FieldNo::POINTS).is_same(&Value::Empty),
    )
}

fn has_no_entries(issue: &Issue) -> bool {
    issue.entry(0).is_none()
        && issue.last_entry(FieldNo::STATUS).is_none()
        && issue.entry_before(0).is_none()
}

/// Who began a span of the status.
fn author_of_span(issue: &Issue, k: usize) -> Option<u16> {
    match issue.span(FieldNo::STATUS, k) {
        Some(span) => Some(span.author.0),
        None => None,
    }
}

fn is_as_opened(alloc: Global) -> Option<bool> {
    let values = values(alloc).ok()?;
    let mut issue = opened(alloc, "OPS", values).ok()?;
    let has_room = issue.reserve(3).is_ok();
    Some(
        has_room
            && tells_its_creation(&issue)
            && has_its_values(alloc, &issue) == Some(true)
            && has_no_entries(&issue)
            && author_of_span(&issue, 0) == Some(0)
            && author_of_span(&issue, 1) == None,
    )
}

#[test]
fn an_opened_issue_has_its_values_and_one_span_a_field(rt: HostRuntime) {
    let passes = is_as_opened(rt.alloc()) == Some(true);
    assert!(rt; passes);
}
