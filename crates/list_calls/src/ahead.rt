// Looking ahead. Texts, lists and changes lie anywhere in memory, and a search that asks one issue after another waits for those of
// each. So what the query looks at first is read of several issues before any of them is asked, and is waited for together. The
// language has no prefetch: these are plain reads, and their sum means nothing.
use change_history::{Entry, Issue, Small};
use fields::{FieldNo, Text, Value};
use jql_bound::{Cond, Leaf, Subject};

/// How many issues are read before they are asked. What is read of them fits into the nearest cache.
pub(crate) const AHEAD: usize = 16;

/// What a query looks at first in each issue that it is asked of.
#[derive(Clone, Copy)]
pub(crate) enum FirstLook {
    /// Nothing that may lie elsewhere.
    Issue,
    /// What the field holds.
    Value(FieldNo),
    /// The last change of the field.
    Change(FieldNo),
}

/// What a query with this condition looks at first.
pub(crate) fn first_look(cond: &Option<Cond>) -> FirstLook {
    match cond {
        Some(cond) => look_of(cond),
        None => FirstLook::Issue,
    }
}

#[cycle(looks)]
fn look_of(cond: &Cond) -> FirstLook {
    match cond {
        Cond::All(conds) | Cond::Any(conds) => look_of_first(conds),
        Cond::Now(leaf) => look_of_leaf(leaf),
        Cond::Past(leaf) => FirstLook::Change(leaf.field),
    }
}

#[cycle(looks)]
fn look_of_first(conds: &[Cond]) -> FirstLook {
    match conds.first() {
        Some(cond) => look_of(cond),
        None => FirstLook::Issue,
    }
}

fn look_of_leaf(leaf: &Leaf) -> FirstLook {
    match leaf.subject {
        Subject::Field(field) => FirstLook::Value(field),
        Subject::Project | Subject::Key | Subject::Created | Subject::Updated => FirstLook::Issue,
    }
}

/// Reads what a query looks at first, of some issues from that place on.
pub(crate) fn read_ahead(issues: &[Issue], place: usize, look: FirstLook) -> usize {
    let mut sum = 0usize;
    for issue in next_of(issues, place) {
        sum = sum.wrapping_add(read(issue, look));
    }
    sum
}

fn next_of(issues: &[Issue], place: usize) -> &[Issue] {
    let end = issues.len().min(place.saturating_add(AHEAD));
    if place < end {
        &issues[place..end]
    } else {
        &[]
    }
}

fn read(issue: &Issue, look: FirstLook) -> usize {
    match look {
        FirstLook::Issue => 0,
        FirstLook::Value(field) => read_present(issue, field),
        FirstLook::Change(field) => read_change(issue, field),
    }
}

fn read_present(issue: &Issue, field: FieldNo) -> usize {
    match issue.small(field) {
        Small::Apart => read_value(issue.value(field)),
        _ => 0,
    }
}

fn read_value(value: &Value) -> usize {
    match value {
        Value::Text(text) => read_text(text),
        Value::Labels(labels) => match labels.as_slice().first() {
            Some(label) => read_text(label),
            None => 0,
        },
        Value::Set(choices) => match choices.as_slice().first() {
            Some(choice) => usize::from(choice.0),
            None => 0,
        },
        _ => 0,
    }
}

fn read_text(text: &Text) -> usize {
    match text.as_str().as_bytes().first() {
        Some(byte) => usize::from(*byte),
        None => 0,
    }
}

fn read_change(issue: &Issue, field: FieldNo) -> usize {
    let Some(place) = issue.last_entry(field) else {
        return 0;
    };
    match issue.entry(place) {
        Some(entry) => read_entry(entry),
        None => 0,
    }
}

// An entry lies across two lines of the cache.
fn read_entry(entry: &Entry) -> usize {
    usize::from(entry.author.0) + usize::from(matches!(entry.to, Value::Empty))
}
