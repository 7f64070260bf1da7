//! The filters that were made, each asked of all issues.
ghost use Rattle.std.specs.Prelude.{◌≡◌, ◌<◌, [], IfOk, OnOk};
ghost use Rattle.jql_meaning.specs.Surroundings.{surroundings_of};
ghost use Rattle.rising_numbers.specs.ByNumber.{put_by_number};
ghost use Rattle.tracker_filters.specs.Saved.{number, AreSaved, MayPut};
ghost use Rattle.tracker_filters.specs.Sprint.{AreNumbered};
ghost use Rattle.change_history.specs.History.{histories_of};
ghost use Rattle.tracker_loading.specs.Filtered.{HasSeen};

use change_history::Issue;
use field_values::{Memory, Moment, Steps};
use jql_bound::Context;
use std::alloc::Global;
use std::marker::Brand;
use std::sync::ledger::{Blank, Ledger};
use tracker_filters::{Filter, Filters, ReadyFilter};

/// These filters with their verdicts on these issues at that moment, where this stands beside the issues.
pub(crate) fn filters_of(
    alloc: Global,
    filters: Vec<Filter>,
    issues: &[Issue],
    context: &Context,
    at: Moment,
) -> Result<Filters, Memory>
    requires saved { AreSaved filters.items }
    requires numbered { AreNumbered (histories_of issues.now) }
    ensures filters { IfOk result (λ asked. asked.filters ≡ filters.items) }
    ensures seen { IfOk result
        (HasSeen (histories_of issues.now) (surroundings_of context.now) at) }
{
    // Nobody reads how often they are asked.
    asked::<Brand>(alloc, filters, issues, context, at, Blank::new(1))
}

// The same, counted in a new ledger.
fn asked<L: Ledger>(
    alloc: Global,
    filters: Vec<Filter>,
    issues: &[Issue],
    context: &Context,
    at: Moment,
    blank: Blank,
) -> Result<Filters, Memory>
    // The filters are such as are saved, and the issues stand by their numbers.
    requires saved { AreSaved filters.items }
    requires numbered { AreNumbered (histories_of issues.now) }
    // The blank is the ledger's own, with all its parts.
    requires name { blank.name ≡ L.name }
    requires parts { blank.parts ≡ L.parts }
    requires some { 0 < L.parts }
    // The filters are the same, and have seen these issues at that moment.
    ensures filters { IfOk result (λ asked. asked.filters ≡ filters.items) }
    ensures seen { IfOk result
        (HasSeen (histories_of issues.now) (surroundings_of context.now) at) }
{
    let mut steps = Steps::<L>::new(blank);
    let mut asked = none_on(alloc, issues, context, at, &mut steps)?;
    for filter in filters {
        put_next(alloc, &mut asked, filter, issues, context, at, &mut steps)?;
    }
    Ok(asked)
}

// No filter, over these issues.
fn none_on<L: Ledger>(
    alloc: Global,
    issues: &[Issue],
    context: &Context,
    at: Moment,
    steps: &mut Steps<L>,
) -> Result<Filters, Memory>
    requires { AreNumbered (histories_of issues.now) }
    ensures filters { IfOk result (λ asked. asked.filters ≡ []) }
    ensures seen { IfOk result
        (HasSeen (histories_of issues.now) (surroundings_of context.now) at) }
{
    let mut asked = Filters::new(alloc, context, at);
    for issue in issues {
        asked.reserve_issue()?;
        asked.see_new(issue, context, at, steps);
    }
    Ok(asked)
}

// Asks the filter of all issues, and puts it in.
fn put_next<L: Ledger>(
    alloc: Global,
    asked: &mut Filters,
    filter: Filter,
    issues: &[Issue],
    context: &Context,
    at: Moment,
    steps: &mut Steps<L>,
) -> Result<(), Memory>
    requires may { MayPut asked.old.filters filter }
    requires seen { HasSeen (histories_of issues.now) (surroundings_of context.now) at asked.old }
    ensures filters { OnOk result (asked.new.filters
        ≡ put_by_number number filter asked.old.filters) }
    ensures seen { OnOk result
        (HasSeen (histories_of issues.now) (surroundings_of context.now) at asked.new) }
{
    asked.reserve_filter()?;
    let ready = ReadyFilter::of(alloc, filter, issues, context, at, steps)?;
    asked.put(ready);
    Ok(())
}
