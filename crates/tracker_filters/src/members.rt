//! The cells of the filters that ask for the members of groups.
ghost use Rattle.std.specs.Prelude.{◌≡◌, ◌<◌, ◌+◌, ◌^◌, MatchBool, true, length, map};
ghost use Rattle.jql_meaning.specs.Surroundings.{surroundings_of};
ghost use Rattle.filter_views.specs.Cell.{filters as numbers_in, is_there};
ghost use Rattle.rising_numbers.specs.ByNumber.{RiseFrom};
ghost use Rattle.tracker_filters.specs.Saved.{number};
ghost use Rattle.change_history.specs.History.{histories_of};
ghost use Rattle.tracker_filters.specs.Members.{asks_members, asking_cost, members_cost, SettlesRow, SettlesMembers};

use crate::asking::asks_members;
use crate::filter::Filter;
use change_history::Issue;
use field_values::{IssueNo, Moment, Steps};
use filter_views::FilterViews;
use jql_bound::Context;
use jql_eval::evaluate;
use std::sync::ledger::Ledger;

// Asks the filter once whether it holds of each issue.
fn settle_row<L: Ledger>(
    views: &mut FilterViews,
    filter: &Filter,
    issues: &[Issue],
    context: &Context,
    at: Moment,
    steps: &mut Steps<L>,
)
    requires there { is_there views.old filter.now.no.0 ≡ true }
    requires many { views.old.issues ≡ length issues.now }
    requires few { length issues.now < 2 ^ 32 }
    ensures settled { SettlesRow (surroundings_of context.now) at filter.now
        (histories_of issues.now) views.old views.new }
    ensures steps { steps.new ≡ steps.old + length issues.now }
{
    let mut no = 0;
    for issue in issues {
        no += 1;
        let verdict = evaluate(&filter.query, issue, context, at, steps);
        views.settle(filter.no, IssueNo(no), verdict);
    }
}

// Asks it where it asks for members.
fn settle_if_asking<L: Ledger>(
    views: &mut FilterViews,
    filter: &Filter,
    issues: &[Issue],
    context: &Context,
    at: Moment,
    steps: &mut Steps<L>,
)
    requires there { is_there views.old filter.now.no.0 ≡ true }
    requires many { views.old.issues ≡ length issues.now }
    requires few { length issues.now < 2 ^ 32 }
    ensures settled { MatchBool (asks_members filter.now)
        (SettlesRow (surroundings_of context.now) at filter.now
        (histories_of issues.now) views.old views.new)
        (views.new ≡ views.old) }
    ensures steps { steps.new ≡ steps.old + asking_cost (length issues.now) filter.now }
{
    if asks_members(filter) {
        settle_row(views, filter, issues, context, at, steps);
    }
}

/// Asks each filter that asks for members once whether it holds of each issue, and settles these cells. It takes no memory.
pub(crate) fn settle_members<L: Ledger>(
    views: &mut FilterViews,
    filters: &[Filter],
    issues: &[Issue],
    context: &Context,
    at: Moment,
    steps: &mut Steps<L>,
)
    // Filters stand by their numbers, and each has a cell for each issue.
    requires rising { RiseFrom number 1 filters.now }
    requires rows { numbers_in views.old ≡ map number filters.now }
    requires many { views.old.issues ≡ length issues.now }
    requires few { length issues.now < 2 ^ 32 }
    // Cells of the filters that ask for members are right, and all others as before.
    ensures settled { SettlesMembers (surroundings_of context.now) at filters.now
        (histories_of issues.now) views.old views.new }
    // It costs one question for each of these cells.
    ensures steps { steps.new ≡ steps.old + members_cost filters.now (length issues.now) }
{
    for filter in filters {
        settle_if_asking(views, filter, issues, context, at, steps);
    }
}
