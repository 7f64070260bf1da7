//! Cells whose end has come.
ghost use Rattle.std.specs.Prelude.{◌≡◌, ◌+◌, IfSome, IfNone};
ghost use Rattle.jql_meaning.specs.Surroundings.{surroundings_of};
ghost use Rattle.filter_views.specs.Views.{shape};
ghost use Rattle.filter_views.specs.Grid.{IsGrid};
ghost use Rattle.filter_views.specs.Counts.{due};
ghost use Rattle.rising_numbers.specs.ByNumber.{RiseFrom};
ghost use Rattle.tracker_filters.specs.Saved.{number};
ghost use Rattle.change_history.specs.History.{histories_of};
ghost use Rattle.tracker_filters.specs.Watched.{AreCellsOf, AreRight};
ghost use Rattle.tracker_filters.specs.Cells.{IsDue, NoneIsDue, ArePending};

use crate::filter::Filter;
use change_history::Issue;
use field_values::{FilterNo, IssueNo, Moment, Steps};
use filter_views::FilterViews;
use jql_bound::Context;
use jql_eval::evaluate;
use rising_numbers::find;
use std::sync::ledger::Ledger;

/// A cell whose end has come by then, the one with the least end.
fn next_due_by(views: &FilterViews, to: Moment) -> Option<(FilterNo, IssueNo)>
    ensures none { IfNone result (NoneIsDue views.now to) }
    ensures count { IfNone result (due views.now to ≡ 0) }
    ensures due { IfSome result (λ d. IsDue views.now to d.0.0 d.1.0) }
    ensures grid { IsGrid views.now }
{
    let Some((end, filter, issue)) = views.next_due() else {
        return None;
    };
    if end.seconds() <= to.seconds() {
        return Some((filter, issue));
    }
    None
}

/// Asks the filter of a cell whose end has come whether it holds now, and settles the cell.
fn settle_due<L: Ledger>(
    views: &mut FilterViews,
    filters: &[Filter],
    cell: (FilterNo, IssueNo),
    issues: &[Issue],
    context: &Context,
    to: Moment,
    steps: &mut Steps<L>,
)
    // Each filter has a cell for each issue. The end of this one has come, and those whose end
    // hasn't come are right.
    requires rising { RiseFrom number 1 filters.now }
    requires due { IsDue views.old to cell.0.0 cell.1.0 }
    requires grid { IsGrid views.old }
    requires cells { AreCellsOf filters.now (histories_of issues.now) views.old }
    requires pending { ArePending (surroundings_of context.now) to
        (histories_of issues.now) filters.now views.old }
    // These stay right, and no filter or issue comes or goes.
    ensures pending { ArePending (surroundings_of context.now) to
        (histories_of issues.now) filters.now views.new }
    ensures same { shape views.new ≡ shape views.old }
    // Each question leaves one cell less that is due, so that asking comes to an end.
    ensures fewer { due views.old to ≡ due views.new to + 1 }
    ensures steps { steps.new ≡ steps.old + 1 }
{
    let (no, issue) = cell;
    if let Some(filter) = find(filters, no.0) {
        let verdict = evaluate(
            &filter.query,
            &issues[issue.0 as usize - 1],
            context,
            to,
            steps,
        );
        views.settle(no, issue, verdict);
    }
}

/// Asks the filters of the cells whose end has come, the least end first, until there is none, and of no other cell. It takes no
/// memory, and nothing where no end has come.
pub(crate) fn catch_up<L: Ledger>(
    views: &mut FilterViews,
    filters: &[Filter],
    issues: &[Issue],
    context: &Context,
    to: Moment,
    steps: &mut Steps<L>,
)
    // Each filter has a cell for each issue, and those whose end hasn't come are right.
    requires rising { RiseFrom number 1 filters.now }
    requires cells { AreCellsOf filters.now (histories_of issues.now) views.old }
    requires pending { ArePending (surroundings_of context.now) to
        (histories_of issues.now) filters.now views.old }
    // All of them are right then, and no filter or issue has come or gone.
    ensures right { AreRight (surroundings_of context.now) to
        (histories_of issues.now) filters.now views.new }
    ensures same { shape views.new ≡ shape views.old }
    // It costs one question for each cell that was due.
    ensures steps { steps.new ≡ steps.old + due views.old to }
{
    while let Some(cell) = next_due_by(views, to) {
        settle_due(views, filters, cell, issues, context, to, steps);
    }
}
