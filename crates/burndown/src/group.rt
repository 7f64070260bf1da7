//! A change group, as a burndown is told of it.
ghost use Rattle.std.specs.Prelude.{◌≡◌};
ghost use Rattle.burndown.specs.Group.{first_sprint, second_sprint};

use crate::share::Share;
use field_values::{IssueNo, Moment, SprintNo};

/// A change group: its number, moment and issue, and what the issue's share was and is. There was none before a creation.
#[derive(Clone, Copy, PartialEq, Eq)]
pub struct Group {
    pub change: u64,
    pub at: Moment,
    pub issue: IssueNo,
    pub before: Option<Share>,
    pub after: Share,
}

impl Group {
    /// The sprint that the issue was in.
    pub(crate) fn first_sprint(&self) -> Option<SprintNo>
        ensures { result ≡ first_sprint self.now }
    {
        match &self.before {
            Some(share) => share.sprint,
            None => None,
        }
    }

    /// The sprint that the issue is in, where it's another one.
    pub(crate) fn second_sprint(&self) -> Option<SprintNo>
        ensures { result ≡ second_sprint self.now }
    {
        match (self.first_sprint(), self.after.sprint) {
            (Some(first), Some(second)) if first.0 == second.0 => None,
            (_, second) => second,
        }
    }
}
