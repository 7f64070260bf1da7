// The call `list`: the issues of which a query holds now, with their fields.
ghost use Rattle.std.specs.Prelude.{◌≡◌, ◌≤◌, ◌+◌, length, map, IfOk};
ghost use Rattle.std.specs.List.{All};
ghost use Rattle.fields.specs.SetupParts.{parts};
ghost use Rattle.tracker_machine.specs.IssueList.{list_meaning, list_answer, listed_issue};
ghost use Rattle.tracker_state.specs.Plan.{IsPrepared, cost_to_prepare};
ghost use Rattle.tracker_state.specs.State.{query_of};
ghost use Rattle.page_calls.specs.Fitting.{HoldsWhatFits};

use crate::wanted::wanted_fields;
use change_history::Issue;
use fields::{FieldNo, Memory, Names, Setup, Steps, UserNo};
use issue_calls::show::put_fields;
use jql_bound::Bound;
use list_calls::search::found_part;
use std::alloc::Global;
use std::sync::ledger::Ledger;
use tracker_calls::{Answer, ListedIssue, ListedIssues, Part, Refusal, ShownFields, ToldText};
use tracker_state::{Prepared, State, asked, part_of};

/// Tells a part of the issues of which the query holds and which the caller may browse, in the query's order, with those of
/// the fields that are asked for and that aren't empty.
#[tactic(auto, unfolding(tracker_machine::specs::IssueList::list_meaning))]
pub fn list<L: Ledger>(
    alloc: Global,
    state: &State,
    caller: UserNo,
    jql: &str,
    fields: &Option<Names>,
    part: Part,
    steps: &mut Steps<L>,
) -> Result<Prepared, Refusal>
    ensures prepared { IsPrepared (list_meaning state.now.machine caller.0 jql.now fields.now part)
        state.now result }
    ensures steps { steps.new ≤ steps.old + cost_to_prepare
        (list_meaning state.now.machine caller.0 jql.now fields.now part) state.now.machine }
{
    let fields = wanted_fields(alloc, state.setup(), fields)?;
    let mut bound = asked(alloc, state.setup(), caller, jql)?;
    let answer = answered(alloc, state, caller, &mut bound, &fields, part, steps);
    drop(bound);
    match answer {
        Ok(answer) => Ok(Prepared::Tell(answer)),
        Err(_) => Err(Refusal::Memory),
    }
}

fn answered<L: Ledger>(
    alloc: Global,
    state: &State,
    caller: UserNo,
    bound: &mut Bound,
    fields: &[FieldNo],
    part: Part,
    steps: &mut Steps<L>,
) -> Result<Answer, Memory>
    ensures answer { IfOk result (λ answer. answer
        ≡ list_answer state.now.machine caller.0 (map (λ f. f.0) fields.now) part (query_of bound.old)) }
    ensures steps { steps.new ≤ steps.old + length state.now.machine.histories }
{
    state.is_tracker();
    let found = found_part(alloc, state, caller, bound, part, steps)?;
    let issues = listed(alloc, state.setup(), part_of(&found.issues, part), fields)?;
    Ok(Answer::List {
        issues,
        total: found.total,
    })
}

// The issues with these of their fields.
fn listed(
    alloc: Global,
    setup: &Setup,
    issues: &[&Issue],
    fields: &[FieldNo],
) -> Result<ListedIssues, Memory>
    requires { All (λ i. HoldsWhatFits (parts setup.now) i.now.history) issues.now }
    ensures { IfOk result (λ listed. listed
        ≡ map (λ i. listed_issue (parts setup.now) (map (λ f. f.0) fields.now) i.now.history) issues.now) }
{
    let mut listed = ListedIssues::new(alloc);
    for issue in issues {
        listed.push(listed_issue(alloc, setup, *issue, fields)?)?;
    }
    Ok(listed)
}

fn listed_issue(
    alloc: Global,
    setup: &Setup,
    issue: &Issue,
    fields: &[FieldNo],
) -> Result<ListedIssue, Memory>
    requires { HoldsWhatFits (parts setup.now) issue.now.history }
    ensures { IfOk result (λ listed. listed
        ≡ listed_issue (parts setup.now) (map (λ f. f.0) fields.now) issue.now.history) }
{
    let mut shown = ShownFields::new(alloc);
    put_fields(alloc, setup, issue, fields, &mut shown)?;
    let key = ToldText::copy_of(alloc, issue.key().as_str())?;
    Ok(ListedIssue {
        created: issue.created(),
        fields: shown,
        issue: key,
        updated: issue.updated(),
    })
}
