// What is made ready before anything is kept.

use board::Board;
use change_history::{Group, Issue};
use fields::{
    BoardNo, FilterNo, GroupNo, IssueNo, Moment, ProjectNo, Sequence, SprintNo, Text, UserNo,
};
use rank_balancer::{Balance, StepPlan};
use rank_strings::Rank;
use sprints::SprintState;
use tracker_calls::Answer;
use tracker_filters::ReadyFilter;
use tracker_keeper::RowOp;

/// What a new issue is called where it came from.
#[derive(Drop)]
pub struct NewExternal {
    pub id: Text,
    /// The same text, by which the issue is found.
    pub text: String,
}

/// A new issue with all that is kept of it.
#[derive(Drop)]
pub struct IssuePlan {
    pub issue: Issue,
    /// Its project.
    pub project: ProjectNo,
    /// The text of its key.
    pub key: String,
    /// Its text bytes.
    pub bytes: u64,
    /// Its rank, behind all others.
    pub rank: Rank,
    /// Its external id, if it has one.
    pub external: Option<NewExternal>,
}

/// A change group of the issue at a place.
#[derive(Drop)]
pub struct GroupPlan {
    pub place: usize,
    pub group: Group,
    /// The text bytes of its entries.
    pub bytes: u64,
}

/// Another rank of an issue.
#[derive(Drop)]
pub struct RankPlan {
    pub issue: IssueNo,
    pub rank: Rank,
}

/// Other members of a group, in the setup's order of users.
#[derive(Drop)]
pub struct MembersPlan {
    pub group: GroupNo,
    pub members: Sequence<UserNo>,
    /// The same once more, for what queries ask of.
    pub asked: Sequence<UserNo>,
}

/// An effect with all that was allocated for it.
#[derive(Drop)]
pub enum Plan {
    Moment(Moment),
    Issue(IssuePlan),
    Group(GroupPlan),
    Rank(RankPlan),
    /// A rebalancing begins, with this balance.
    Balance(Balance),
    /// A step of a rebalancing.
    Step(StepPlan),
    /// There is a new sprint of this name.
    Sprint(Text),
    /// A sprint starts or is closed, and is in this state from then on.
    State {
        sprint: SprintNo,
        state: SprintState,
    },
    /// A filter is saved, with its verdicts on all issues.
    Save(ReadyFilter),
    /// A filter is dropped, and its boards with it.
    DropFilter(FilterNo),
    /// There is a new board.
    Board(Board),
    /// A board is dropped.
    DropBoard(BoardNo),
    /// A group comes to other members.
    Members(MembersPlan),
}

/// What comes of preparing a call: an answer alone, or a plan with its answer and the operations that keep it.
#[derive(Drop)]
pub enum Prepared {
    Tell(Answer),
    Make {
        plan: Plan,
        answer: Answer,
        rows: Vec<RowOp>,
    },
}
