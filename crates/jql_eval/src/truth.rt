// Whether a query holds of an issue, where nobody asks until when.
ghost use Rattle.std.specs.Prelude.{◌≡◌, ◌+◌, option_map};
ghost use Rattle.jql_bound.specs.Condition.{view, views};
ghost use Rattle.jql_meaning.specs.Surroundings.{surroundings_of};
ghost use Rattle.jql_meaning.specs.Truth.{holds, query_holds};
ghost use Rattle.jql_eval.specs.Joined.{joined};

use change_history::Issue;
use field_values::{Moment, Steps};
use jql_bound::{Bound, Cond, Context};
use jql_past::holds_past;
use jql_present::holds_present;
use std::sync::ledger::Ledger;

/// Whether the query holds of the issue at the moment. It counts one step, as [`evaluate`](crate::evaluate) does.
#[tactic(auto, unfolding(jql_meaning::specs::Truth::query_holds))]
pub fn holds<L: Ledger>(
    query: &Bound,
    issue: &Issue,
    context: &Context,
    at: Moment,
    steps: &mut Steps<L>,
) -> bool
    ensures holds { result ≡ query_holds (surroundings_of context.now) issue.now.history at
        (option_map view query.now.cond) }
    ensures steps { steps.new ≡ steps.old + 1 }
{
    steps.tick();
    match &query.cond {
        Some(cond) => condition_holds(cond, issue, context, at),
        None => true,
    }
}

// Whether the condition holds.
#[cycle(truths)]
fn condition_holds(cond: &Cond, issue: &Issue, context: &Context, at: Moment) -> bool
    ensures { result ≡ holds (surroundings_of context.now) issue.now.history at (view cond.now) }
{
    match cond {
        Cond::All(conds) => joined_holds(conds, false, issue, context, at),
        Cond::Any(conds) => joined_holds(conds, true, issue, context, at),
        Cond::Now(leaf) => holds_present(leaf, issue, context, at),
        Cond::Past(leaf) => holds_past(leaf, issue, context, at),
    }
}

// Several conditions, the first of which that holds decides, or the first that doesn't.
#[cycle(truths)]
fn joined_holds(
    conds: &[Cond],
    deciding: bool,
    issue: &Issue,
    context: &Context,
    at: Moment,
) -> bool
    ensures { result ≡ joined deciding (surroundings_of context.now) issue.now.history at
        (views conds.now) }
{
    for cond in conds {
        if condition_holds(cond, issue, context, at) == deciding {
            return deciding;
        }
    }
    !deciding
}
