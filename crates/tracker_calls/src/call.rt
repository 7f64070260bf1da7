// What a line asks for: each call and what it gives.
use crate::given::GivenFields;
use crate::told_text::ToldText;
use field_values::{BoardNo, FilterNo, Moment, Names, SprintNo, Text};

/// What a line asks for.
pub enum Call {
    /// A new issue of the project.
    Create {
        project: ToldText,
        issue_type: ToldText,
        summary: Text,
        set: GivenFields,
        /// The issue's number or name where it came from: 1 to 64 printable characters of ASCII.
        external: Option<Text>,
    },

    /// Fields of the issue are to hold these values.
    Edit {
        issue: ToldText,
        set: GivenFields,
    },

    /// The present moment is to be this one.
    Tick {
        to: Moment,
    },

    /// The issue is to make the transition of that name, and its fields are to hold these values before it.
    Transition {
        issue: ToldText,
        transition: ToldText,
        set: GivenFields,
    },

    /// The issue is to stand right before the other one in the order of ranks.
    MoveBefore {
        issue: ToldText,
        other: ToldText,
    },

    /// The issue is to stand right behind the other one in the order of ranks.
    MoveAfter {
        issue: ToldText,
        other: ToldText,
    },

    /// All ranks are to be on the way to the next bucket.
    RebalanceStart,

    /// So many ranks are to go on to the next bucket, or all that are left.
    RebalanceStep {
        /// 1 to [`MOST_LISTED`].
        count: u32,
    },

    /// The user's filter of that name is to be this query, or a new one is.
    SaveFilter {
        /// 1 to 100 bytes without control characters.
        name: Text,
        jql: Text,
    },

    /// The filter is to be kept no longer.
    DropFilter {
        filter: FilterNo,
    },

    /// A new board of that name is to show the issues of the filter.
    MakeBoard {
        /// 1 to 100 bytes without control characters.
        name: Text,
        filter: FilterNo,
    },

    /// The board is to be kept no longer.
    DropBoard {
        board: BoardNo,
    },

    /// There is to be a new sprint of that name.
    MakeSprint {
        /// 1 to 100 bytes without control characters.
        name: Text,
    },

    /// The sprint is to be active.
    StartSprint {
        sprint: SprintNo,
    },

    /// The sprint is to be closed.
    CloseSprint {
        sprint: SprintNo,
    },

    /// The group of that name is to have these users and no others.
    SetGroup {
        group: Text,
        /// At most [`MOST_MEMBERS`].
        members: Names,
    },

    /// The issue's present values.
    Show {
        issue: ToldText,
    },

    /// A part of the issue's entries, the oldest first.
    History {
        issue: ToldText,
        part: Part,
    },

    /// A part of the issues of which a query holds, in the query's order.
    Search {
        jql: Text,
        part: Part,
    },

    /// A part of the issues with their ranks, in the order of these.
    Ranks {
        part: Part,
    },

    /// Whether ranks are on the way to another bucket, and how long the longest is.
    Balance,

    /// A part of the issues of which the filter's query holds.
    Filter {
        filter: FilterNo,
        part: Part,
    },

    /// A part of the board's issues, each in the column of its status.
    Board {
        board: BoardNo,
        part: Part,
    },

    /// A part of the changes of what the sprint has left, while it was active.
    Burndown {
        sprint: SprintNo,
        part: Part,
    },

    /// A part of the issues of which a query holds, in the query's order, with those of these fields that they have; all that
    /// they have where none is named.
    List {
        jql: Text,
        /// At most [`MOST_FIELDS`].
        fields: Option<Names>,
        part: Part,
    },

    /// A part of the saved filters that the caller is told, by number.
    Filters {
        part: Part,
    },

    /// A part of the boards, by number.
    Boards {
        part: Part,
    },

    /// A part of the sprints, by number.
    Sprints {
        part: Part,
    },

    /// What the setup and the present say to whoever asks.
    Describe,
}

// Written by hand, so that whoever lets one go makes one call, and its proof takes one step there.
impl Drop for Call {
    fn drop(self) {
        match self {
            Call::Create {
                project: _,
                issue_type: _,
                summary: _,
                set: _,
                external: _,
            }
            | Call::Edit { issue: _, set: _ }
            | Call::Tick { to: _ }
            | Call::Transition {
                issue: _,
                transition: _,
                set: _,
            }
            | Call::MoveBefore { issue: _, other: _ }
            | Call::MoveAfter { issue: _, other: _ }
            | Call::RebalanceStart
            | Call::RebalanceStep { count: _ }
            | Call::SaveFilter { name: _, jql: _ }
            | Call::DropFilter { filter: _ }
            | Call::MakeBoard { name: _, filter: _ }
            | Call::DropBoard { board: _ }
            | Call::MakeSprint { name: _ }
            | Call::StartSprint { sprint: _ }
            | Call::CloseSprint { sprint: _ }
            | Call::SetGroup {
                group: _,
                members: _,
            }
            | Call::Show { issue: _ }
            | Call::History { issue: _, part: _ }
            | Call::Search { jql: _, part: _ }
            | Call::Ranks { part: _ }
            | Call::Balance
            | Call::Filter { filter: _, part: _ }
            | Call::Board { board: _, part: _ }
            | Call::Burndown { sprint: _, part: _ }
            | Call::List {
                jql: _,
                fields: _,
                part: _,
            }
            | Call::Filters { part: _ }
            | Call::Boards { part: _ }
            | Call::Sprints { part: _ }
            | Call::Describe => {}
        }
    }
}

/// The part of a list that a call asks for: at most `count` of it, behind its first `from`.
#[derive(Clone, Copy, PartialEq, Eq)]
pub struct Part {
    /// 0 to [`MOST_FROM`].
    pub from: u32,
    /// From 1 on.
    pub count: u32,
}

/// The greatest `from` of a part.
pub const MOST_FROM: u32 = 2_000_000;

/// The greatest `count` of a part of a history, which is also that of a part that names none.
pub const MOST_ENTRIES: u32 = 50;

/// The greatest `count` of a part of a list of issues, which is also that of a part that names none.
pub const MOST_LISTED: u32 = 1_000;

/// The greatest `count` of a part of a list of issues with their fields, which is also that of a part that names none.
pub const MOST_SHOWN: u32 = 100;

/// How many fields a call names at most.
pub const MOST_FIELDS: usize = 50;

/// How many members a call names at most.
pub const MOST_MEMBERS: usize = 200;
