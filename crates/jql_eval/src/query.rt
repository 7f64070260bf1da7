// Whether a query holds of an issue, and until when that stays.
ghost use Rattle.std.specs.Prelude.{◌≡◌, ◌+◌, option_map};
ghost use Rattle.jql_bound.specs.Condition.{view, views};
ghost use Rattle.jql_meaning.specs.Surroundings.{surroundings_of};
ghost use Rattle.jql_meaning.specs.Truth.{holds, query_holds};
ghost use Rattle.jql_meaning.specs.Past.{holds_past};
ghost use Rattle.jql_meaning.specs.Critical.{IsCritical, IsCriticalNow, IsCriticalForOne, IsCriticalForQuery, IsCriticalPast};
ghost use Rattle.jql_meaning.specs.Ends.{Stays};
ghost use Rattle.jql_meaning.specs.Present.{holds_now};
ghost use Rattle.jql_eval.specs.Right.{IsRight};
ghost use Rattle.jql_eval.specs.Joined.{joined};

use crate::verdict::Verdict;
use change_history::Issue;
use field_values::{Moment, Steps};
use jql_bound::{Bound, Cond, Context, Leaf, PastLeaf};
use jql_past::{holds_past, next_past};
use jql_present::{earlier, holds_present, next_present};
use std::sync::ledger::Ledger;

/// Whether the query holds of the issue at the moment, and until when that stays. It counts one step.
#[tactic(auto, unfolding(jql_meaning::specs::Truth::query_holds, jql_meaning::specs::Critical::IsCriticalForQuery))]
pub fn evaluate<L: Ledger>(
    query: &Bound,
    issue: &Issue,
    context: &Context,
    at: Moment,
    steps: &mut Steps<L>,
) -> Verdict
    ensures right { IsRight (surroundings_of context.now) issue.now.history
        (option_map view query.now.cond) at result.holds result.until }
    ensures steps { steps.new ≡ steps.old + 1 }
{
    steps.tick();
    match &query.cond {
        Some(cond) => verdict_of(cond, issue, context, at),
        None => Verdict::new(true, None),
    }
}

// The verdict on a condition.
#[cycle(conditions)]
fn verdict_of(cond: &Cond, issue: &Issue, context: &Context, at: Moment) -> Verdict
    ensures holds { result.holds
        ≡ holds (surroundings_of context.now) issue.now.history at (view cond.now) }
    ensures until { Stays
        (λ t. holds (surroundings_of context.now) issue.now.history t (view cond.now))
        (λ t. IsCritical (surroundings_of context.now) issue.now.history t (view cond.now))
        at result.until }
{
    match cond {
        Cond::All(conds) => joined_verdict(conds, false, issue, context, at),
        Cond::Any(conds) => joined_verdict(conds, true, issue, context, at),
        Cond::Now(leaf) => present_verdict(leaf, issue, context, at),
        Cond::Past(leaf) => past_verdict(leaf, issue, context, at),
    }
}

// The verdict on several conditions, one of which decides where it holds, or where it doesn't. As long as that one stays so, the
// others don't matter; and where none decides, the first of them to change does.
#[cycle(conditions)]
fn joined_verdict(
    conds: &[Cond],
    deciding: bool,
    issue: &Issue,
    context: &Context,
    at: Moment,
) -> Verdict
    ensures holds { result.holds
        ≡ joined deciding (surroundings_of context.now) issue.now.history at (views conds.now) }
    ensures until { Stays
        (λ t. joined deciding (surroundings_of context.now) issue.now.history t (views conds.now))
        (λ t. IsCriticalForOne (surroundings_of context.now) issue.now.history t (views conds.now))
        at result.until }
{
    let mut until = None;
    for cond in conds {
        let verdict = verdict_of(cond, issue, context, at);
        if verdict.holds() == deciding {
            return verdict;
        }
        until = earlier(until, verdict.until());
    }
    Verdict::new(!deciding, until)
}

// The verdict on a comparison with what is present.
fn present_verdict(leaf: &Leaf, issue: &Issue, context: &Context, at: Moment) -> Verdict
    ensures holds { result.holds
        ≡ holds_now (surroundings_of context.now) leaf.now issue.now.history at }
    ensures until { Stays (holds_now (surroundings_of context.now) leaf.now issue.now.history)
        (IsCriticalNow (surroundings_of context.now) issue.now.history leaf.now) at result.until }
{
    Verdict::new(
        holds_present(leaf, issue, context, at),
        next_present(leaf, issue, context, at),
    )
}

// The verdict on a comparison with the past.
fn past_verdict(leaf: &PastLeaf, issue: &Issue, context: &Context, at: Moment) -> Verdict
    ensures holds { result.holds
        ≡ holds_past (surroundings_of context.now) leaf.now issue.now.history at }
    ensures until { Stays (holds_past (surroundings_of context.now) leaf.now issue.now.history)
        (IsCriticalPast (surroundings_of context.now) issue.now.history leaf.now) at result.until }
{
    Verdict::new(
        holds_past(leaf, issue, context, at),
        next_past(leaf, issue, context, at),
    )
}
