//! What an issue counts for, and a row of a burndown.
ghost use Rattle.std.specs.Prelude.{◌≡◌};
ghost use Rattle.burndown.specs.Share.{counts_for, counted_before};

use field_values::{IssueNo, Moment, SprintNo};

/// What remaining work depends on in an issue. Points are in thousandths, 0 where the issue has none.
#[derive(Clone, Copy, PartialEq, Eq)]
pub struct Share {
    /// The issue's sprint.
    pub sprint: Option<SprintNo>,
    pub points: i64,
    /// Whether its status is of the category done.
    pub done: bool,
}

/// A change group that changed a sprint's remaining work.
#[derive(Clone, Copy, Debug, PartialEq, Eq)]
pub struct BurnRow {
    pub at: Moment,
    /// The change group's number.
    pub change: u64,
    pub issue: IssueNo,
    /// The difference, in thousandths.
    pub by: i64,
    /// What remains after the group, in thousandths.
    pub left: i64,
}

impl Share {
    /// What the issue counts for in this sprint.
    pub(crate) fn counts_for(&self, sprint: SprintNo) -> i64
        ensures { result ≡ counts_for sprint.0 self.now }
    {
        match self.sprint {
            Some(own) if own.0 == sprint.0 && !self.done => self.points,
            _ => 0,
        }
    }
}

/// What an issue counted for in this sprint, where it was there.
pub(crate) fn counted_before(before: &Option<Share>, sprint: SprintNo) -> i64
    ensures { result ≡ counted_before sprint.0 before.now }
{
    match before {
        Some(share) => share.counts_for(sprint),
        None => 0,
    }
}
