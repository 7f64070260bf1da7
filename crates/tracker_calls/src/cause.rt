use crate::reply::SprintPhase;
use field_values::{Moment, Permission, Text};

/// Why the tracker refuses a call.
#[derive(Drop)]
pub enum Cause {
    /// Number 1: this member is the first that is absent or not of its form.
    Form {
        member: Text,
    },

    /// Number 2: there is no such thing.
    Unknown {
        kind: Thing,
        name: Text,
    },

    /// Number 3: the caller hasn't this permission, in the project of this key where it is one of a project.
    Forbidden {
        permission: Permission,
        project: Option<Text>,
    },

    /// Number 4: this condition of the transition fails. 0 is that it leaves the issue's status, and the setup's count
    /// from 1.
    Condition {
        index: usize,
    },

    /// Number 5: this validator of the transition fails, counted from 1.
    Validator {
        index: usize,
    },

    /// Number 6: this field is the first, by its number, whose value doesn't fit.
    Unfit {
        field: Text,
    },

    /// Number 7: the query's first fault. 1 to 7 are kinds of faults of its text, at the byte `place`; 11 to 15 are kinds of
    /// faults of what it asks for, in the test of that number from 0, or after all tests in the sort key.
    Query {
        kind: u8,
        place: usize,
    },

    /// Number 8: there is no rank between these two, or where one of them is absent, on that side of the other.
    NoRoom {
        low: Option<Text>,
        high: Option<Text>,
    },

    /// Number 9: the sprint is this far, which doesn't let the call through.
    SprintIs {
        state: SprintPhase,
    },

    /// Number 10: no more are kept than this limit.
    Limit {
        limit: Limit,
    },

    /// Number 11: the present moment is later than the one that was asked for.
    Earlier {
        kept: Moment,
    },

    /// Number 12: the balance is this one, which doesn't let the call through.
    BalanceIs(BalanceKept),

    /// Number 13: the issue of this key has the external id already, and was created as another one.
    ExternalIs {
        external: Text,
        kept: Text,
    },
}

/// A balance that doesn't let a call through.
#[derive(Clone, Copy, PartialEq, Eq)]
pub enum BalanceKept {
    /// All ranks are in this bucket.
    Idle(u8),
    /// Ranks are on the way.
    Moving { from: u8, to: u8 },
}

/// A kind of thing that a call names.
#[derive(Clone, Copy, PartialEq, Eq)]
pub enum Thing {
    User,
    Project,
    Issue,
    Transition,
    Sprint,
    Field,
    Filter,
    Board,
    Group,
}

/// What the tracker keeps no more of than a number.
#[derive(Clone, Copy, PartialEq, Eq)]
pub enum Limit {
    Issues,
    Entries,
    /// The bytes of texts and labels, and some for each version.
    TextBytes,
    /// Saved filters.
    Filters,
    Boards,
    Sprints,
}
