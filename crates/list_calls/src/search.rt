// The call `search`: the issues of which a query holds now.
ghost use Rattle.std.specs.Prelude.{◌≡◌, ◌+◌, ◌≤◌, IfOk, Some, filter, length, map, option_map, slice_get};
ghost use Rattle.jql_bound.specs.Condition.{view};
ghost use Rattle.jql_meaning.specs.Truth.{query_holds};
ghost use Rattle.tracker_calls.specs.Part.{part_of};
ghost use Rattle.tracker_machine.specs.Search.{found, search_meaning, search_answer, surroundings_in};
ghost use Rattle.tracker_state.specs.Plan.{IsPrepared, cost_to_prepare};
ghost use Rattle.tracker_state.specs.State.{query_of};
ghost use Rattle.list_calls.specs.Browsing.{is_found_by};
ghost use Rattle.list_calls.specs.Found.{found_in_order};

use crate::ahead::{AHEAD, first_look, read_ahead};
use crate::browsing::{browsable, is_browsable};
use crate::in_order::put_in_order;
use crate::listing::{count_of, end_of, keys_of};
use change_history::Issue;
use fields::{Memory, Steps, UserNo};
use jql_bound::Bound;
use jql_eval::holds;
use jql_prepare::settle;
use std::alloc::Global;
use std::sync::ledger::Ledger;
use tracker_calls::{Answer, Part, Refusal};
use tracker_state::{Prepared, State, asked, part_of};

/// Tells a part of the issues of which the query holds and which the caller may browse, in the query's order.
#[tactic(auto, unfolding(tracker_machine::specs::Search::search_meaning))]
pub fn search<L: Ledger>(
    alloc: Global,
    state: &State,
    caller: UserNo,
    jql: &str,
    part: Part,
    steps: &mut Steps<L>,
) -> Result<Prepared, Refusal>
    ensures prepared { IsPrepared (search_meaning state.now.machine caller.0 jql.now part)
        state.now result }
    ensures steps { steps.new ≤ steps.old + cost_to_prepare
        (search_meaning state.now.machine caller.0 jql.now part) state.now.machine }
{
    let mut bound = asked(alloc, state.setup(), caller, jql)?;
    let answer = answered(alloc, state, caller, &mut bound, part, steps);
    drop(bound);
    match answer {
        Ok(answer) => Ok(Prepared::Tell(answer)),
        Err(_) => Err(Refusal::Memory),
    }
}

fn answered<L: Ledger>(
    alloc: Global,
    state: &State,
    caller: UserNo,
    bound: &mut Bound,
    part: Part,
    steps: &mut Steps<L>,
) -> Result<Answer, Memory>
    ensures answer { IfOk result (λ answer. answer
        ≡ search_answer state.now.machine caller.0 part (query_of bound.old)) }
    ensures steps { steps.new ≤ steps.old + length state.now.machine.histories }
{
    let found = found_part(alloc, state, caller, bound, part, steps)?;
    let issues = keys_of(alloc, part_of(&found.issues, part))?;
    Ok(Answer::Search {
        issues,
        total: found.total,
    })
}

/// What a query finds: issues, of which a part is told, and how many there are.
#[derive(Drop)]
pub struct FoundIssues<'s> {
    pub issues: Vec<&'s Issue>,
    pub total: u64,
}

/// The issues of which the query holds and which the caller may browse: those of the part in the query's order, and how many there
/// are. The query's dates are worked out before any issue is asked: it is asked at this moment alone, and each at most once.
pub fn found_part<'s, L: Ledger>(
    alloc: Global,
    state: &'s State,
    caller: UserNo,
    bound: &mut Bound,
    part: Part,
    steps: &mut Steps<L>,
) -> Result<FoundIssues<'s>, Memory>
    ensures issues { IfOk result (λ told.
        map (λ i. i.now.history) (part_of part told.issues.items)
        ≡ part_of part (found_in_order state.now.machine caller.0 (query_of bound.old))) }
    ensures total { IfOk result (λ told. told.total
        ≡ length (found state.now.machine caller.0 (query_of bound.old).condition)) }
    ensures steps { steps.new ≤ steps.old + length state.now.machine.histories }
{
    settle(bound, state.context(), state.moment());
    ordered(alloc, state, caller, bound, part, steps)
}

fn ordered<'s, L: Ledger>(
    alloc: Global,
    state: &'s State,
    caller: UserNo,
    bound: &Bound,
    part: Part,
    steps: &mut Steps<L>,
) -> Result<FoundIssues<'s>, Memory>
    ensures issues { IfOk result (λ told.
        map (λ i. i.now.history) (part_of part told.issues.items)
        ≡ part_of part (found_in_order state.now.machine caller.0 (query_of bound.now))) }
    ensures total { IfOk result (λ told. told.total
        ≡ length (found state.now.machine caller.0 (query_of bound.now).condition)) }
    ensures steps { steps.new ≤ steps.old + length state.now.machine.histories }
{
    let mut issues = found(alloc, state, caller, bound, steps)?;
    let total = count_of(&issues);
    put_in_order(alloc, state, &bound.order, end_of(part), &mut issues)?;
    Ok(FoundIssues { issues, total })
}

// The issues of which the query holds and which the caller may browse. Each is asked at most once; of each project it is
// asked once whether the caller may browse it.
fn found<'s, L: Ledger>(
    alloc: Global,
    state: &'s State,
    caller: UserNo,
    bound: &Bound,
    steps: &mut Steps<L>,
) -> Result<Vec<&'s Issue>, Memory>
    ensures found { IfOk result (λ issues. map (λ i. i.now.history) issues.items
        ≡ found state.now.machine caller.0 (option_map view bound.now.cond)) }
    ensures steps { steps.new ≤ steps.old + length state.now.machine.histories }
{
    let table = browsable(alloc, state.setup(), caller)?;
    found_among(alloc, state, &table, bound, steps)
}

// The same, by a table of the projects that may be browsed.
fn found_among<'s, L: Ledger>(
    alloc: Global,
    state: &'s State,
    table: &[bool],
    bound: &Bound,
    steps: &mut Steps<L>,
) -> Result<Vec<&'s Issue>, Memory>
    ensures found { IfOk result (λ issues. map (λ i. i.now.history) issues.items
        ≡ filter (is_found_by state.now.machine table.now (option_map view bound.now.cond))
        state.now.machine.histories) }
    ensures steps { steps.new ≤ steps.old + length state.now.machine.histories }
{
    let look = first_look(&bound.cond);
    let mut read = 0usize;
    let mut issues = Vec::new(alloc);
    for (place, issue) in state.issues().iter().enumerate() {
        if place % AHEAD == 0 {
            read = read.wrapping_add(read_ahead(state.issues(), place, look));
        }
        if is_found(state, table, bound, place, issue, steps) {
            issues.push(issue)?;
        }
    }
    // The sum is never so large, which the compiler doesn't know, so that it leaves the reads in.
    if read == usize::MAX {
        issues.reserve(1)?;
    }
    Ok(issues)
}

fn is_found<L: Ledger>(
    state: &State,
    table: &[bool],
    bound: &Bound,
    place: usize,
    issue: &Issue,
    steps: &mut Steps<L>,
) -> bool
    requires { slice_get state.now.machine.histories place ≡ Some issue.now.history }
    ensures found { result
        ≡ is_found_by state.now.machine table.now (option_map view bound.now.cond)
        issue.now.history }
    ensures steps { steps.new ≤ steps.old + 1 }
{
    if !is_browsable(state, table, place) {
        return false;
    }
    holds_now(state, bound, issue, steps)
}

fn holds_now<L: Ledger>(state: &State, bound: &Bound, issue: &Issue, steps: &mut Steps<L>) -> bool
    ensures holds { result ≡ query_holds
        (surroundings_in state.now.machine.setup state.now.machine.sprints) issue.now.history
        state.now.machine.moment (option_map view bound.now.cond) }
    ensures steps { steps.new ≡ steps.old + 1 }
{
    holds(bound, issue, state.context(), state.moment(), steps)
}
