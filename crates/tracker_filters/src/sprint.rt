//! The cells of the issues that are in one sprint.
ghost use Rattle.std.specs.Prelude.{◌≡◌, ◌+◌, MatchBool, length, map};
ghost use Rattle.jql_meaning.specs.Surroundings.{surroundings_of};
ghost use Rattle.filter_views.specs.FilterRow.{HasNumber};
ghost use Rattle.filter_views.specs.Cell.{filters as numbers_in};
ghost use Rattle.rising_numbers.specs.ByNumber.{RiseFrom};
ghost use Rattle.tracker_filters.specs.Saved.{number};
ghost use Rattle.change_history.specs.History.{histories_of};
ghost use Rattle.tracker_filters.specs.Cells.{SettlesIssue};
ghost use Rattle.tracker_filters.specs.Sprint.{AreNumbered, SettlesSprint, is_in_sprint, cost_in, sprint_cost};

use crate::cells::settle_issue;
use crate::filter::Filter;
use change_history::Issue;
use field_values::{FieldNo, Moment, SprintNo, Steps, Value};
use filter_views::FilterViews;
use jql_bound::Context;
use std::sync::ledger::Ledger;

// Whether the issue is in the sprint.
fn is_in_sprint(issue: &Issue, sprint: SprintNo) -> bool
    ensures { result ≡ is_in_sprint sprint.0 issue.now.history }
{
    match issue.value(FieldNo::SPRINT) {
        Value::Sprint(own) => own.0 == sprint.0,
        _ => false,
    }
}

// Asks each filter of the issue where it is in the sprint.
fn settle_if_in<L: Ledger>(
    views: &mut FilterViews,
    filters: &[Filter],
    issue: &Issue,
    sprint: SprintNo,
    context: &Context,
    at: Moment,
    steps: &mut Steps<L>,
)
    requires rising { RiseFrom number 1 filters.now }
    requires rows { numbers_in views.old ≡ map number filters.now }
    requires there { HasNumber issue.now.history.no.0 views.old.issues }
    ensures settled { MatchBool (is_in_sprint sprint.0 issue.now.history)
        (SettlesIssue (surroundings_of context.now) at filters.now issue.now.history
        issue.now.history.no.0 views.old views.new)
        (views.new ≡ views.old) }
    ensures steps { steps.new
        ≡ steps.old + cost_in (length filters.now) sprint.0 issue.now.history }
{
    if is_in_sprint(issue, sprint) {
        settle_issue(views, filters, issue, context, at, steps);
    }
}

/// Asks each filter once whether it holds of each issue in the sprint, and settles these cells. It takes no memory.
pub(crate) fn settle_sprint<L: Ledger>(
    views: &mut FilterViews,
    filters: &[Filter],
    issues: &[Issue],
    sprint: SprintNo,
    context: &Context,
    at: Moment,
    steps: &mut Steps<L>,
)
    // Filters stand by their numbers, as issues do, and each has a cell for each issue.
    requires rising { RiseFrom number 1 filters.now }
    requires rows { numbers_in views.old ≡ map number filters.now }
    requires issues { views.old.issues ≡ length issues.now }
    requires numbered { AreNumbered (histories_of issues.now) }
    // Cells of the issues in the sprint are right, and all others as before.
    ensures settled { SettlesSprint (surroundings_of context.now) at filters.now
        (histories_of issues.now) sprint.0 views.old views.new }
    // It costs one question for each of these cells.
    ensures steps { steps.new ≡ steps.old
        + sprint_cost (length filters.now) sprint.0 (histories_of issues.now) }
{
    for issue in issues {
        settle_if_in(views, filters, issue, sprint, context, at, steps);
    }
}
