// The issue that a row tells of.
ghost use Rattle.std.specs.Prelude.{◌≡◌, ◌<◌, ◌≤◌, length, IfOk};
ghost use Rattle.change_history.specs.History.{present, updated, last_change, MayAdd};
ghost use Rattle.workflow.specs.Difference.{AreNews, entries_of};

use crate::rows::fault::Fault;
use crate::rows::names::{field_of, key_of, moment_of, user_of, value_of};
use crate::rows::row::{Step, step_of};
use change_history::{Change, Changes, Entries, Entry, Group, Issue};
use field_values::{IssueNo, Memory, Moment, UserNo};
use fields::Setup;
use std::alloc::Global;
use workflow::net_changes;

/// The issue of that number and key, by the steps of its history.
pub fn issue_of(
    alloc: Global,
    setup: &Setup,
    no: u32,
    key: &str,
    story: &str,
) -> Result<Issue, Fault> {
    match story.split_once(" | ") {
        Some((first, steps)) => {
            let issue = opened(alloc, setup, no, key, first)?;
            with_steps(alloc, setup, issue, steps)
        }
        None => opened(alloc, setup, no, key, story),
    }
}

fn with_steps(alloc: Global, setup: &Setup, mut issue: Issue, steps: &str) -> Result<Issue, Fault> {
    match make_all(alloc, setup, &mut issue, steps) {
        Ok(()) => Ok(issue),
        Err(fault) => Err(fault),
    }
}

fn make_all(alloc: Global, setup: &Setup, issue: &mut Issue, steps: &str) -> Result<(), Fault> {
    for step in steps.split(" | ") {
        make(alloc, setup, issue, step)?;
    }
    Ok(())
}

fn opened(alloc: Global, setup: &Setup, no: u32, key: &str, text: &str) -> Result<Issue, Fault> {
    let Some(step) = step_of(text) else {
        return Err(Fault::NoRow);
    };
    let values = changes_of(alloc, setup, step.values)?;
    open(alloc, setup, no, key, step, values)
}

fn open(
    alloc: Global,
    setup: &Setup,
    no: u32,
    key: &str,
    step: Step<'_>,
    values: Vec<Change>,
) -> Result<Issue, Fault> {
    let key = key_of(alloc, key)?;
    let at = moment_of(step.at)?;
    let author = user_of(setup, step.user)?;
    let opening = listed(alloc, values)?;
    Ok(Issue::open(alloc, IssueNo(no), key, 1, at, author, opening)?)
}

fn listed(alloc: Global, values: Vec<Change>) -> Result<Changes, Memory> {
    let mut changes = Changes::new(alloc);
    for change in values {
        changes.push(change)?;
    }
    Ok(changes)
}

fn changes_of(alloc: Global, setup: &Setup, values: &str) -> Result<Vec<Change>, Fault> {
    let mut changes = Vec::new(alloc);
    if values.is_empty() {
        return Ok(changes);
    }
    for piece in values.split("; ") {
        put(&mut changes, change_of(alloc, setup, piece)?)?;
    }
    Ok(changes)
}

fn put(changes: &mut Vec<Change>, change: Change) -> Result<(), Memory> {
    changes.push(change)?;
    Ok(())
}

fn change_of(alloc: Global, setup: &Setup, piece: &str) -> Result<Change, Fault> {
    let Some((name, text)) = piece.split_once('=') else {
        return Err(Fault::NoRow);
    };
    let field = field_of(setup, name)?;
    let to = value_of(alloc, setup, field, text)?;
    Ok(Change { field, to })
}

// Makes a step that isn't the creation.
fn make(alloc: Global, setup: &Setup, issue: &mut Issue, text: &str) -> Result<(), Fault> {
    let Some(step) = step_of(text) else {
        return Err(Fault::NoRow);
    };
    let at = moment_of(step.at)?;
    let author = user_of(setup, step.user)?;
    let changes = changes_of(alloc, setup, step.values)?;
    if at.seconds() < issue.updated().seconds() {
        return Err(Fault::NoRow);
    }
    add(alloc, issue, at, author, changes)
}

// Adds what the changes come to as one change group; where they change nothing there is none.
fn add(
    alloc: Global,
    issue: &mut Issue,
    at: Moment,
    author: UserNo,
    changes: Vec<Change>,
) -> Result<(), Fault>
    requires { updated issue.old.history ≤ at }
{
    let net = news_of(issue, changes);
    if net.as_slice().is_empty() {
        return Ok(());
    }
    let group = group_of(alloc, issue, at, author, net.as_slice())?;
    issue.reserve(group.entries.as_slice().len())?;
    issue.add(group);
    Ok(())
}

fn news_of(issue: &Issue, changes: Vec<Change>) -> Vec<Change>
    ensures { AreNews (present issue.now.history) 0 result.items }
{
    net_changes(issue, changes)
}

// The change group of what differs, which the issue may add.
fn group_of(
    alloc: Global,
    issue: &Issue,
    at: Moment,
    author: UserNo,
    net: &[Change],
) -> Result<Group, Fault>
    requires later { updated issue.now.history ≤ at }
    requires some { 0 < length net.now }
    requires news { AreNews (present issue.now.history) 0 net.now }
    ensures { IfOk result
        (λ group. MayAdd issue.now.history group.change group.at group.author group.entries) }
{
    let Some(change) = last_change(issue).checked_add(1) else {
        return Err(Fault::NoRow);
    };
    let entries = entries_of(alloc, issue, change, at, author, net)?;
    Ok(Group {
        change,
        at,
        author,
        entries,
    })
}

// The entries of the change group.
fn entries_of(
    alloc: Global,
    issue: &Issue,
    change: u64,
    at: Moment,
    author: UserNo,
    net: &[Change],
) -> Result<Entries, Memory>
    ensures { IfOk result
        (λ entries. entries ≡ entries_of (present issue.now.history) change at author net.now) }
{
    let mut entries = Entries::new(alloc);
    for next in net {
        let from = issue.value(next.field).copy(alloc)?;
        let to = next.to.copy(alloc)?;
        entries.push(Entry {
            change,
            at,
            author,
            field: next.field,
            from,
            to,
        })?;
    }
    Ok(entries)
}

// The number of the last change group.
fn last_change(issue: &Issue) -> u64
    ensures { result ≡ last_change issue.now.history.change issue.now.history.entries }
{
    let mut number = issue.change();
    for entry in issue.part(0, issue.entries()) {
        number = entry.change;
    }
    number
}
