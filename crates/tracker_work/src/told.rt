//! The change groups of all issues, as a burndown is told of them.
ghost use Rattle.std.specs.Prelude.{◌≡◌, ◌++◌, IfOk, OnOk, option_copied};
ghost use Rattle.burndown.specs.Reading.{share_of};
ghost use Rattle.change_history.specs.History.{opening_value, histories_of};
ghost use Rattle.tracker_work.specs.Seen.{is_done_by};
ghost use Rattle.tracker_work.specs.Told.{share_after, ends_group, groups_among, groups_in, groups_of};

use crate::shares::{is_done_in, points_in, sprint_in};
use burndown::Share;
use change_history::{Entry, Issue};
use field_values::{FieldNo, IssueNo, Memory, Moment};
use std::alloc::Global;

/// A change group: its number, moment and issue, and what the issue's share was and is. There was none before a creation.
#[derive(Clone, Copy)]
pub struct Told {
    pub change: u64,
    pub at: Moment,
    pub issue: IssueNo,
    pub before: Option<Share>,
    pub after: Share,
}

/// The groups of all issues, by issues.
pub(crate) fn groups_of(alloc: Global, done: &[bool], issues: &[Issue]) -> Result<Vec<Told>, Memory>
    ensures { IfOk result (λ groups.
        groups.items ≡ groups_of done.now (histories_of issues.now)) }
{
    let mut groups = Vec::new(alloc);
    for issue in issues {
        push_groups(&mut groups, done, issue)?;
    }
    Ok(groups)
}

/// Puts the groups of an issue to the end, its creation first.
fn push_groups(groups: &mut Vec<Told>, done: &[bool], issue: &Issue) -> Result<(), Memory>
    ensures { OnOk result (groups.new.items
        ≡ groups.old.items ++ groups_in done.now issue.now.history) }
{
    let opening = opening_share(done, issue);
    groups.push(Told {
        change: issue.change(),
        at: issue.created(),
        issue: issue.no(),
        before: None,
        after: opening,
    })?;
    let entries = issue.part(0, issue.entries());
    push_changes(groups, done, issue.no(), opening, entries)
}

/// Puts the groups to the end that these entries of an issue are, which opened with this share.
fn push_changes(
    groups: &mut Vec<Told>,
    done: &[bool],
    issue: IssueNo,
    opening: Share,
    entries: &[Entry],
) -> Result<(), Memory>
    ensures { OnOk result (groups.new.items
        ≡ groups.old.items ++ groups_among done.now issue opening opening entries.now) }
{
    let mut before = opening;
    let mut share = opening;
    for (at, entry) in entries.iter().enumerate() {
        share = share_after(done, share, entry);
        if ends_group(entry, entries.get(at + 1)) {
            groups.push(Told {
                change: entry.change,
                at: entry.at,
                issue,
                before: Some(before),
                after: share,
            })?;
            before = share;
        }
    }
    Ok(())
}

/// Whether the entry is the last one of its group, where this one follows it.
fn ends_group(entry: &Entry, next: Option<&Entry>) -> bool
    ensures { result ≡ ends_group entry.now (option_copied next.entry) }
{
    match next {
        Some(next) => next.change != entry.change,
        None => true,
    }
}

/// What an issue counted for when it opened.
fn opening_share(done: &[bool], issue: &Issue) -> Share
    ensures { result ≡ share_of (is_done_by done.now) (opening_value issue.now.history.opening) }
{
    Share {
        sprint: sprint_in(issue.opening(FieldNo::SPRINT)),
        points: points_in(issue.opening(FieldNo::POINTS)),
        done: is_done_in(done, issue.opening(FieldNo::STATUS)),
    }
}

/// What an issue counts for after one more entry.
fn share_after(done: &[bool], share: Share, entry: &Entry) -> Share
    ensures { result ≡ share_after done.now share entry.now }
{
    let field = entry.field.0;
    Share {
        sprint: if field == FieldNo::SPRINT.0 {
            sprint_in(&entry.to)
        } else {
            share.sprint
        },
        points: if field == FieldNo::POINTS.0 {
            points_in(&entry.to)
        } else {
            share.points
        },
        done: if field == FieldNo::STATUS.0 {
            is_done_in(done, &entry.to)
        } else {
            share.done
        },
    }
}
