//! A filter that is ready to be put in.
ghost use Rattle.std.specs.Prelude.{◌≡◌, ◌<◌, ◌+◌, length, slice_get, option_map, Some, IfOk, OnOk, OnErr};
ghost use Rattle.jql_meaning.specs.Surroundings.{surroundings_of};
ghost use Rattle.tracker_filters.specs.Saved.{condition_of};
ghost use Rattle.change_history.specs.History.{histories_of};
ghost use Rattle.tracker_filters.specs.Ready.{AreVerdicts};

use crate::filter::Filter;
use change_history::Issue;
use field_values::{Memory, Moment, Steps};
use jql_bound::Context;
use jql_eval::{Verdict, evaluate};
use std::alloc::Global;
use std::sync::ledger::Ledger;

/// A filter with its verdicts on all issues, which is ready to be put in without memory.
pub struct ReadyFilter {
    pub(crate) filter: Filter,
    // By the issues' numbers.
    pub(crate) verdicts: Vec<Verdict>,
}

// Written by hand, so that whoever lets one go makes one call, and its proof takes one step there.
impl Drop for ReadyFilter {
    fn drop(self) {
        let ReadyFilter {
            filter: _,
            verdicts: _,
        } = self;
    }
}

impl ReadyFilter {
    /// Asks the filter once for each issue whether it holds of it.
    pub fn of<L: Ledger>(
        alloc: Global,
        filter: Filter,
        issues: &[Issue],
        context: &Context,
        at: Moment,
        steps: &mut Steps<L>,
    ) -> Result<ReadyFilter, Memory>
        ensures filter { IfOk result (λ ready. ready.filter ≡ filter) }
        ensures right { IfOk result (λ ready.
            AreVerdicts (surroundings_of context.now) at (condition_of filter)
            (histories_of issues.now) ready.verdicts.items) }
        ensures steps { OnOk result (steps.new ≡ steps.old + length issues.now) }
        ensures err { OnErr result (steps.new ≡ steps.old) }
    {
        let Ok(verdicts) = verdicts_on(alloc, &filter, issues, context, at, steps) else {
            return Err(Memory);
        };
        Ok(ReadyFilter { filter, verdicts })
    }

    /// The filter and its verdicts.
    pub(crate) fn into_parts(self) -> (Filter, Vec<Verdict>)
        ensures { result ≡ (self.filter, self.verdicts) }
    {
        let ReadyFilter { filter, verdicts } = self;
        (filter, verdicts)
    }

    /// The filter, lent.
    pub fn filter(&self) -> &Filter
        ensures { result.now ≡ self.now.filter }
    {
        &self.filter
    }

    /// Whether the filter holds of the issue at a place from 0.
    pub fn holds(&self, place: usize) -> bool
        requires { place < length self.now.verdicts.items }
        ensures { Some result ≡
            option_map (λ t. t.holds) (slice_get self.now.verdicts.items place) }
    {
        self.verdicts[place].holds()
    }
}

// The filter's verdicts on the issues in order.
fn verdicts_on<L: Ledger>(
    alloc: Global,
    filter: &Filter,
    issues: &[Issue],
    context: &Context,
    at: Moment,
    steps: &mut Steps<L>,
) -> Result<Vec<Verdict>, Memory>
    ensures right { IfOk result (λ verdicts.
        AreVerdicts (surroundings_of context.now) at (condition_of filter.now)
        (histories_of issues.now) verdicts.items) }
    ensures steps { OnOk result (steps.new ≡ steps.old + length issues.now) }
    ensures err { OnErr result (steps.new ≡ steps.old) }
{
    let mut verdicts = Vec::with_capacity(alloc, issues.len())?;
    for issue in issues {
        verdicts.push_reserved(evaluate(&filter.query, issue, context, at, steps));
    }
    Ok(verdicts)
}
