//! A change group that is read.
ghost use Rattle.std.specs.Prelude.{◌≡◌, ◌≤◌, ◌-◌, ◌^◌, ◌↔◌, true, false, min, sum_by, IfOk, IsTrue};
ghost use Rattle.tracker_machine.specs.Checks.{entry_bytes};
ghost use Rattle.tracker_machine.specs.Effect.{grown};
ghost use Rattle.tracker_rows.specs.Rules.{IsInTurn, MayBeGroup, MayBeGroupOf};
ghost use Rattle.tracker_loading.specs.Entries.{AreOfGroup};
ghost use Rattle.tracker_loading.specs.Turns.{IsBehindGroups};

use crate::entries::{lead_on, may_empty_fields};
use crate::making::Making;
use crate::turn::has_its_turn;
use crate::weight::bytes_of_entries;
use change_history::{Group, Issue};
use field_values::{IssueNo, Memory, Moment};
use tracker_limits::{MOST_ENTRIES, MOST_TEXT_BYTES};

impl Making {
    /// Adds a group that is behind all others to its issue, or answers false exactly where it breaks a rule.
    pub(crate) fn join_group(&mut self, issue: IssueNo, group: Group) -> Result<bool, Memory>
        requires numbered { 1 ≤ issue.0 }
        requires entries { AreOfGroup group.change group.at group.author group.entries }
        requires next { IsBehindGroups self.old.histories group.change }
        ensures good { IfOk result (λ good. good ≡ true → MayBeGroupOf self.old issue group
            × (self.new ≡ record self.old {
              histories = grown self.old.histories (issue.0 - 1) group.entries;
            })) }
        ensures bad { IfOk result (λ good. good ≡ false → ¬ (MayBeGroupOf self.old issue group)) }
    {
        let bytes = bytes_of_entries(group.entries.as_slice());
        if !self.may_group(issue, &group, bytes) {
            return Ok(false);
        }
        let place = place_of(issue);
        let count = group.entries.as_slice().len();
        self.issues.reserve_entries(place, count)?;
        self.group_at = group.at;
        self.issues.add(place, group, bytes);
        Ok(true)
    }

    // Whether the issue is there and the group keeps all rules.
    fn may_group(&self, issue: IssueNo, group: &Group, bytes: u64) -> bool
        requires entries { AreOfGroup group.now.change group.now.at group.now.author
            group.now.entries }
        requires next { IsBehindGroups self.now.histories group.now.change }
        requires bytes { bytes ≡ min (sum_by entry_bytes group.now.entries) (2 ^ 64 - 1) }
        ensures { IsTrue result ↔ MayBeGroupOf self.now issue group.now }
    {
        match self.issues.get(place_of(issue)) {
            Some(kept) => self.may_follow(kept, group, bytes),
            None => false,
        }
    }

    // Whether the group keeps all rules of a group of the issue.
    fn may_follow(&self, kept: &Issue, group: &Group, bytes: u64) -> bool
        requires entries { AreOfGroup group.now.change group.now.at group.now.author
            group.now.entries }
        requires next { IsBehindGroups self.now.histories group.now.change }
        requires bytes { bytes ≡ min (sum_by entry_bytes group.now.entries) (2 ^ 64 - 1) }
        ensures { IsTrue result ↔ MayBeGroup self.now kept.now.history group.now }
    {
        let entries = group.entries.as_slice();
        if group.change <= kept.change() || entries.is_empty() {
            return false;
        }
        if !self.is_in_turn(group.change, group.at) {
            return false;
        }
        if !lead_on(kept, group) || !may_empty_fields(entries) {
            return false;
        }
        if self.issues.entries().saturating_add(entries.len()) > MOST_ENTRIES {
            return false;
        }
        self.issues.bytes().saturating_add(bytes) <= MOST_TEXT_BYTES
    }

    /// Whether a change of that number and moment comes in turn.
    pub(crate) fn is_in_turn(&self, change: u64, at: Moment) -> bool
        requires { IsBehindGroups self.now.histories change }
        ensures { IsTrue result ↔ IsInTurn self.now change at }
    {
        if self.change < change || self.moment < at {
            return false;
        }
        has_its_turn(self.issues.as_slice(), self.group_at, change, at)
    }
}

// The place of the issue of a number.
fn place_of(issue: IssueNo) -> usize
    ensures { result ≡ issue.0 - 1 }
{
    (issue.0 as usize).saturating_sub(1)
}
