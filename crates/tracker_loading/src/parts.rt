//! The parts of a tracker in the making, and of its state.

use external_ids::ExternalIds;
use field_values::Moment;
use fields::Setup;
use jql_bound::Context;
use rank_balancer::Balance;
use rank_strings::Rank;
use sprints::Sprints;
use tracker_boards::Boards;
use tracker_filters::{Filter, Filters};
use tracker_issues::Issues;
use tracker_ranks::Ranks;
use tracker_work::Work;

/// What stands in the state as it was made. Whoever has one lets it go by `let_go`.
pub(crate) struct Base {
    pub(crate) setup: Setup,
    pub(crate) change: u64,
    pub(crate) moment: Moment,
    pub(crate) issues: Issues,
    pub(crate) externals: ExternalIds,
    pub(crate) boards: Boards,
}

/// What was made beside it, from which the other parts of the state follow.
pub(crate) struct Given {
    pub(crate) balance: Balance,
    pub(crate) ranks: Vec<Rank>,
    pub(crate) sprints: Sprints,
    pub(crate) filters: Vec<Filter>,
}

/// The other parts of the state.
pub(crate) struct Derived {
    pub(crate) context: Context,
    pub(crate) ranks: Ranks,
    pub(crate) filters: Filters,
    pub(crate) work: Work,
}

impl Base {
    /// Lets it go.
    pub(crate) fn let_go(self) {
        let Base {
            setup: _,
            change: _,
            moment: _,
            issues: _,
            externals: _,
            boards: _,
        } = self;
    }
}
