//! What an issue counts for.
ghost use Rattle.std.specs.Prelude.{◌≡◌, IfOk};
ghost use Rattle.burndown.specs.Reading.{sprint_in, points_in, is_done_in};
ghost use Rattle.tracker_work.specs.Seen.{is_done, done_of, is_done_by, share_now};

use crate::work::Work;
use burndown::Share;
use change_history::Issue;
use field_values::{Category, ChoiceNo, FieldNo, Memory, SprintNo, Status, Value};
use std::alloc::Global;

impl Work {
    /// What the issue counts for now: its sprint, its points, and whether it is done.
    pub fn share(&self, issue: &Issue) -> Share
        ensures { result ≡ share_now self.now.seen issue.now.history }
    {
        Share {
            sprint: sprint_in(issue.value(FieldNo::SPRINT)),
            points: points_in(issue.value(FieldNo::POINTS)),
            done: is_done_in(&self.done, issue.value(FieldNo::STATUS)),
        }
    }
}

/// For each status, whether it is of the category done.
pub(crate) fn done_of(alloc: Global, statuses: &[Status]) -> Result<Vec<bool>, Memory>
    ensures { IfOk result (λ done. done.items ≡ done_of statuses.now) }
{
    let mut done = Vec::new(alloc);
    for status in statuses {
        done.push(is_done(&status.category))?;
    }
    Ok(done)
}

fn is_done(category: &Category) -> bool
    ensures { result ≡ is_done category.now }
{
    match category {
        Category::ToDo | Category::InProgress => false,
        Category::Done => true,
    }
}

fn is_done_by(done: &[bool], status: ChoiceNo) -> bool
    ensures { result ≡ is_done_by done.now status }
{
    match done.get(usize::from(status.0)) {
        Some(is_done) => *is_done,
        None => false,
    }
}

pub(crate) fn is_done_in(done: &[bool], value: &Value) -> bool
    ensures { result ≡ is_done_in (is_done_by done.now) value.now }
{
    match value {
        Value::Choice(status) => is_done_by(done, *status),
        _ => false,
    }
}

pub(crate) fn sprint_in(value: &Value) -> Option<SprintNo>
    ensures { result ≡ sprint_in value.now }
{
    match value {
        Value::Sprint(sprint) => Some(*sprint),
        _ => None,
    }
}

pub(crate) fn points_in(value: &Value) -> i64
    ensures { result ≡ points_in value.now }
{
    match value {
        Value::Number(thousandths) => *thousandths,
        _ => 0,
    }
}
