//! The cells of one issue, and those of one filter.
ghost use Rattle.std.specs.Prelude.{◌≡◌, ◌<◌, ◌+◌, ◌^◌, ℕ, true, None, length, map, vec_len, vec_capacity};
ghost use Rattle.jql_meaning.specs.Surroundings.{surroundings_of};
ghost use Rattle.filter_views.specs.FilterRow.{HasNumber};
ghost use Rattle.filter_views.specs.Cell.{filters as numbers_in, is_there, cell_of};
ghost use Rattle.rising_numbers.specs.ByNumber.{RiseFrom, by_number, put_by_number};
ghost use Rattle.tracker_filters.specs.Saved.{number};
ghost use Rattle.tracker_filters.specs.Cells.{SettlesIssue, SettlesFilter};

use crate::filter::Filter;
use change_history::Issue;
use field_values::{FilterNo, IssueNo, Moment, Steps};
use filter_views::FilterViews;
use jql_bound::Context;
use jql_eval::{Verdict, evaluate};
use rising_numbers::put_in;
use std::sync::ledger::Ledger;

/// Puts the filter into the list, with a row of cells where no filter had its number. It takes no memory.
pub(crate) fn put_row(filters: &mut Vec<Filter>, views: &mut FilterViews, filter: Filter)
    // Filters stand by their numbers, and each has its row of cells.
    requires rising { RiseFrom number 1 filters.old.items }
    requires rows { numbers_in views.old ≡ map number filters.old.items }
    // Room was made for a filter whose number is new.
    requires room { by_number number filter.no.0 filters.old.items ≡ None →
        vec_len filters.old < vec_capacity filters.old }
    requires row { by_number number filter.no.0 filters.old.items ≡ None →
        length views.old.table < views.old.filter_room }
    // The filter stands by its number, with a row of cells.
    ensures filters { filters.new.items ≡ put_by_number number filter filters.old.items }
    ensures rows { numbers_in views.new
        ≡ map number (put_by_number number filter filters.old.items) }
    // No cell changes by that: what it says of each issue is settled afterwards.
    ensures issues { views.new.issues ≡ views.old.issues }
    ensures cells { (n j : ℕ) → cell_of views.new n j ≡ cell_of views.old n j }
{
    let no = filter.no;
    if put_in(filters, filter) {
        views.add_filter(no);
    }
}

/// Asks each filter once whether it holds of the issue, and settles its cell. It takes no memory.
pub(crate) fn settle_issue<L: Ledger>(
    views: &mut FilterViews,
    filters: &[Filter],
    issue: &Issue,
    context: &Context,
    at: Moment,
    steps: &mut Steps<L>,
)
    requires rising { RiseFrom number 1 filters.now }
    requires rows { numbers_in views.old ≡ map number filters.now }
    requires there { HasNumber issue.now.history.no.0 views.old.issues }
    ensures settled { SettlesIssue (surroundings_of context.now) at filters.now issue.now.history
        issue.now.history.no.0 views.old views.new }
    ensures steps { steps.new ≡ steps.old + length filters.now }
{
    let no = issue.no();
    for filter in filters {
        let verdict = evaluate(&filter.query, issue, context, at, steps);
        views.settle(filter.no, no, verdict);
    }
}

/// Settles a filter's cells by verdicts on the issues in order. It takes no memory.
pub(crate) fn settle_filter(views: &mut FilterViews, filter: FilterNo, verdicts: &[Verdict])
    requires there { is_there views.old filter.0 ≡ true }
    requires many { length verdicts.now ≡ views.old.issues }
    requires few { length verdicts.now < 2 ^ 32 }
    ensures { SettlesFilter verdicts.now filter.0 views.old views.new }
{
    let mut issue = 0;
    for verdict in verdicts {
        issue += 1;
        views.settle(filter, IssueNo(issue), *verdict);
    }
}
