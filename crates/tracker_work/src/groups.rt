//! Change groups that are seen.
ghost use Rattle.std.specs.Prelude.{◌≡◌, ◌+◌, ◌<◌, length, slice_get, Some};
ghost use Rattle.burndown.specs.Group.{group_of};
ghost use Rattle.change_history.specs.History.{histories_of};
ghost use Rattle.tracker_work.specs.Seen.{share_now, with_histories};
ghost use Rattle.tracker_work.specs.Work.{IsWork, MayTell, ComesLast, GrowsAt, HasSameRoom};

use crate::work::Work;
use burndown::Share;
use burndown::laws::steps_of_histories;
use change_history::Issue;
use field_values::Moment;
use std::snapshot::Snapshot;

impl Work {
    /// Sees a new issue, the last of these, which the next change group made. It takes no memory.
    pub fn see_issue(&mut self, issues: &Vec<Issue>)
        requires { ComesLast self.old (histories_of issues.now.items) }
        ensures seen { self.new.seen
            ≡ with_histories self.old.seen (histories_of issues.now.items) }
        ensures room { HasSameRoom self.old self.new }
    {
        steps_of_histories();
        self.is_work();
        let issue = issue_at(issues, issues.len() - 1);
        self.tell(issues, issue, issue.change(), issue.created(), None);
    }

    /// Sees that the issue at a place was changed by the next change group, of that number and moment, where `before` is what it counted
    /// for before. It takes no memory.
    pub fn see_group(
        &mut self,
        issues: &Vec<Issue>,
        place: usize,
        before: Share,
        change: u64,
        at: Moment,
    )
        requires change { change ≡ self.old.seen.change + 1 }
        requires group { GrowsAt self.old place before at (histories_of issues.now.items) }
        ensures seen { self.new.seen
            ≡ with_histories self.old.seen (histories_of issues.now.items) }
        ensures room { HasSameRoom self.old self.new }
    {
        steps_of_histories();
        self.is_work();
        let issue = issue_at(issues, place);
        self.tell(issues, issue, change, at, Some(before));
    }

    /// Takes in the next change group, which is one of this issue, and which has led to these issues.
    fn tell(
        &mut self,
        issues: &Vec<Issue>,
        issue: &Issue,
        change: u64,
        at: Moment,
        before: Option<Share>,
    )
        requires change { change ≡ self.old.seen.change + 1 }
        requires told { MayTell self.old
            (group_of change at issue.now.history.no before
            (share_now self.old.seen issue.now.history))
            (histories_of issues.now.items) }
        ensures seen { self.new.seen
            ≡ with_histories self.old.seen (histories_of issues.now.items) }
        ensures room { HasSameRoom self.old self.new }
    {
        let share = self.share(issue);
        self.burndown
            .row_after(change, at, issue.no(), before, share);
        self.issues = Snapshot::of(issues);
        self.change = Snapshot::of(&change);
    }

    /// What is kept is what the histories say.
    fn is_work(&self)
        ensures { IsWork self.now }
    {
        let _ = &self.done;
    }
}

/// The issue at a place.
fn issue_at(issues: &[Issue], place: usize) -> &Issue
    requires { place < length issues.now }
    ensures { slice_get issues.now place ≡ Some result.now }
{
    &issues[place]
}
