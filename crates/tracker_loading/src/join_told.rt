//! What rows tell, which is lent: each text of it is copied.
ghost use Rattle.std.specs.Prelude.{◌≡◌, ◌≤◌, ◌<◌, ◌-◌, ◌+◌, ◌++◌, ◌∷◌, [], true, false, None, length, IfOk};
ghost use Rattle.rank_strings.specs.Rank.{IsRank};
ghost use Rattle.rising_numbers.specs.ByNumber.{by_number};
ghost use Rattle.tracker_machine.specs.Checks.{entries_kept};
ghost use Rattle.tracker_machine.specs.Effect.{grown, with_board, with_filter, with_new_rank};
ghost use Rattle.tracker_machine.specs.Saved.{board_number, filter_number};
ghost use Rattle.tracker_rows.specs.Gathered.{opened};
ghost use Rattle.tracker_rows.specs.Rules.{MayBeBoard, MayBeFilter, MayBeGroupOf, MayBeIssue, MayBeRank, MayBeSprint};
ghost use Rattle.tracker_loading.specs.Entries.{AreOfGroup};
ghost use Rattle.tracker_loading.specs.Turns.{IsBehindGroups};

use crate::copies::{changes_copy, group_copy, sprint_copy};
use crate::making::Making;
use crate::weight::bytes_of_changes;
use board::Board;
use change_history::{Change, Group, Issue, Key};
use field_values::{BoardNo, FilterNo, IssueNo, Memory, Moment, SprintNo, Text, UserNo};
use rank_strings::Rank;
use sprints::Sprint;
use std::alloc::Global;

impl Making {
    /// Puts an issue behind the others, or answers false exactly where it breaks a rule.
    pub(crate) fn join_told_issue(
        &mut self,
        alloc: Global,
        no: IssueNo,
        key: &Key,
        change: u64,
        at: Moment,
        author: UserNo,
        values: &[Change],
    ) -> Result<bool, Memory>
        requires next { entries_kept self.old.histories ≡ 0 }
        ensures good { IfOk result (λ good. good ≡ true →
            MayBeIssue self.old (opened no key.now change at author values.now)
            × (self.new ≡ record self.old {
              histories = self.old.histories ++ opened no key.now change at author values.now ∷ [];
            })) }
        ensures bad { IfOk result (λ good. good ≡ false →
            ¬ (MayBeIssue self.old (opened no key.now change at author values.now))) }
    {
        let bytes = bytes_of_changes(values);
        let issue = open(alloc, no, key, change, at, author, values)?;
        self.join_issue(alloc, issue, bytes)
    }

    /// Adds a group that is behind all others to its issue, or answers false exactly where it breaks a rule.
    pub(crate) fn join_told_group(
        &mut self,
        alloc: Global,
        issue: IssueNo,
        group: &Group,
    ) -> Result<bool, Memory>
        requires numbered { 1 ≤ issue.0 }
        requires entries { AreOfGroup group.now.change group.now.at group.now.author
            group.now.entries }
        requires next { IsBehindGroups self.old.histories group.now.change }
        ensures good { IfOk result (λ good. good ≡ true → MayBeGroupOf self.old issue group.now
            × (self.new ≡ record self.old {
              histories = grown self.old.histories (issue.0 - 1) group.now.entries;
            })) }
        ensures bad { IfOk result (λ good. good ≡ false →
            ¬ (MayBeGroupOf self.old issue group.now)) }
    {
        let copy = group_copy(alloc, group)?;
        self.join_group(issue, copy)
    }

    /// Puts the rank of the next issue in its place, or answers false exactly where it breaks a rule.
    pub(crate) fn join_told_rank(
        &mut self,
        alloc: Global,
        issue: IssueNo,
        rank: &Rank,
    ) -> Result<bool, Memory>
        requires rank { IsRank rank.now }
        requires next { issue.0 ≤ length self.old.histories → issue.0 ≡ length self.old.order + 1 }
        ensures good { IfOk result (λ good. good ≡ true → MayBeRank self.old issue rank.now
            × (self.new ≡ with_new_rank self.old issue rank.now)) }
        ensures bad { IfOk result (λ good. good ≡ false → ¬ (MayBeRank self.old issue rank.now)) }
    {
        let copy = rank.copy(alloc)?;
        self.join_rank(alloc, issue, copy)
    }

    /// Adds a sprint behind the others, or answers false exactly where it breaks a rule.
    pub(crate) fn join_told_sprint(
        &mut self,
        alloc: Global,
        no: SprintNo,
        sprint: &Sprint,
    ) -> Result<bool, Memory>
        ensures good { IfOk result (λ good. good ≡ true → MayBeSprint self.old no.0 sprint.now
            × (self.new ≡ record self.old { sprints = self.old.sprints ++ sprint.now ∷ [] })) }
        ensures bad { IfOk result (λ good. good ≡ false →
            ¬ (MayBeSprint self.old no.0 sprint.now)) }
    {
        let copy = sprint_copy(alloc, sprint)?;
        self.join_sprint(no, copy)
    }

    /// Adds a filter whose number is free, or answers false exactly where it breaks a rule.
    pub(crate) fn join_told_filter(
        &mut self,
        alloc: Global,
        no: FilterNo,
        owner: UserNo,
        name: &Text,
        text: &Text,
    ) -> Result<bool, Memory>
        requires positive { 1 ≤ no.0 }
        requires free { by_number filter_number no.0 self.old.filters ≡ None }
        ensures good { IfOk result (λ good. good ≡ true → MayBeFilter self.old
            (record { no = no; owner = owner; name = name.now; text = text.now })
            × (self.new ≡ with_filter self.old
            (record { no = no; owner = owner; name = name.now; text = text.now }))) }
        ensures bad { IfOk result (λ good. good ≡ false → ¬ (MayBeFilter self.old
            (record { no = no; owner = owner; name = name.now; text = text.now }))) }
    {
        let name = name.copy(alloc)?;
        let text = text.copy(alloc)?;
        self.join_filter(alloc, no, owner, name, text)
    }

    /// Adds a board whose number is free, or answers false exactly where it breaks a rule.
    pub(crate) fn join_told_board(
        &mut self,
        alloc: Global,
        no: BoardNo,
        name: &Text,
        filter: FilterNo,
    ) -> Result<bool, Memory>
        requires positive { 0 < no.0 }
        requires free { by_number board_number no.0 self.old.boards ≡ None }
        ensures good { IfOk result (λ good. good ≡ true →
            MayBeBoard self.old (record { no = no; name = name.now; filter = filter })
            × (self.new ≡ with_board self.old
            (record { no = no; name = name.now; filter = filter }))) }
        ensures bad { IfOk result (λ good. good ≡ false →
            ¬ (MayBeBoard self.old (record { no = no; name = name.now; filter = filter }))) }
    {
        let name = name.copy(alloc)?;
        self.join_board(Board { no, name, filter })
    }
}

// The issue as its row has it.
fn open(
    alloc: Global,
    no: IssueNo,
    key: &Key,
    change: u64,
    at: Moment,
    author: UserNo,
    values: &[Change],
) -> Result<Issue, Memory>
    ensures { IfOk result (λ issue. issue.history ≡ opened no key.now change at author values.now) }
{
    let key = key.copy(alloc)?;
    let values = changes_copy(alloc, values)?;
    Issue::open(alloc, no, key, change, at, author, values)
}
