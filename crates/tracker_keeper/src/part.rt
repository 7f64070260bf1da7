// The parts of a tracker that are kept, each as a row of its kind.
ghost use Rattle.std.specs.Prelude.{◌≡◌};
ghost use Rattle.tracker_keeper.specs.Parts.{part_kind, part_number, format_number};

use change_history::{Changes, Group, Key};
use field_values::{BoardNo, FilterNo, GroupNo, IssueNo, Moment, Sequence, SprintNo, Text, UserNo};
use rank_balancer::Balance;
use rank_strings::Rank;
use sprints::Sprint;

/// How rows are kept.
#[derive(Clone, Copy, PartialEq, Eq)]
pub enum Format {
    /// The members of groups are those of the setup's text.
    First,
    /// The members of each group are a row.
    Second,
}

/// What one row keeps.
pub enum Part {
    /// The setup's text.
    Setup {
        text: Text,
    },
    /// Where the tracker stands: its balance, the number of its last change group and its moment.
    Present {
        balance: Balance,
        change: u64,
        format: Format,
        moment: Moment,
    },
    /// An issue as it was created, with those values that aren't empty, in the order of the fields.
    Issue {
        no: IssueNo,
        key: Key,
        change: u64,
        at: Moment,
        author: UserNo,
        values: Changes,
    },
    /// A change group of an issue.
    Group {
        issue: IssueNo,
        group: Group,
    },
    /// The rank of an issue.
    Rank {
        issue: IssueNo,
        rank: Rank,
    },
    /// The external id of an issue.
    External {
        issue: IssueNo,
        external: Text,
    },
    /// A sprint with its name and its state.
    Sprint {
        no: SprintNo,
        sprint: Sprint,
    },
    /// A saved filter.
    Filter {
        no: FilterNo,
        owner: UserNo,
        name: Text,
        jql: Text,
    },
    /// A board.
    Board {
        no: BoardNo,
        name: Text,
        filter: FilterNo,
    },
    /// The members of a group, in the setup's order of users.
    Members {
        group: GroupNo,
        members: Sequence<UserNo>,
    },
}

// Written by hand, so that whoever lets one go makes one call, and its proof takes one step there.
impl Drop for Part {
    fn drop(self) {
        match self {
            Part::Setup { text: _ }
            | Part::Present {
                balance: _,
                change: _,
                format: _,
                moment: _,
            }
            | Part::Issue {
                no: _,
                key: _,
                change: _,
                at: _,
                author: _,
                values: _,
            }
            | Part::Group { issue: _, group: _ }
            | Part::Rank { issue: _, rank: _ }
            | Part::External {
                issue: _,
                external: _,
            }
            | Part::Sprint { no: _, sprint: _ }
            | Part::Filter {
                no: _,
                owner: _,
                name: _,
                jql: _,
            }
            | Part::Board {
                no: _,
                name: _,
                filter: _,
            }
            | Part::Members {
                group: _,
                members: _,
            } => {}
        }
    }
}

impl Format {
    /// The number by which a body tells it.
    pub fn number(self) -> u64
        ensures { result ≡ format_number self }
    {
        match self {
            Format::First => 1,
            Format::Second => 2,
        }
    }
}

impl Part {
    /// The kind of its row.
    pub fn kind(&self) -> u8
        ensures { result ≡ part_kind self.now }
    {
        match self {
            Part::Setup { .. } => 1,
            Part::Present { .. } => 2,
            Part::Issue { .. } => 3,
            Part::Group { .. } => 4,
            Part::Rank { .. } => 5,
            Part::External { .. } => 6,
            Part::Sprint { .. } => 7,
            Part::Filter { .. } => 8,
            Part::Board { .. } => 9,
            Part::Members { .. } => 10,
        }
    }

    /// The number of its row.
    pub fn number(&self) -> u64
        ensures { result ≡ part_number self.now }
    {
        match self {
            Part::Setup { .. } | Part::Present { .. } => 0,
            Part::Issue { no, .. } => u64::from(no.0),
            Part::Group { group, .. } => group.change,
            Part::Rank { issue, .. } => u64::from(issue.0),
            Part::External { issue, .. } => u64::from(issue.0),
            Part::Sprint { no, .. } => u64::from(no.0),
            Part::Filter { no, .. } => u64::from(no.0),
            Part::Board { no, .. } => u64::from(no.0),
            Part::Members { group, .. } => u64::from(group.0),
        }
    }
}
