// The call `filter`: the issues of which a saved filter holds now, as its cells say.
ghost use Rattle.std.specs.Prelude.{◌≡◌, IfOk, Some, map, option_map};
ghost use Rattle.std.specs.List.{filter_map};
ghost use Rattle.rising_numbers.specs.ByNumber.{by_number};
ghost use Rattle.tracker_filters.specs.Saved.{number};
ghost use Rattle.tracker_machine.specs.Filters.{shown, filter_answer, filter_meaning};
ghost use Rattle.tracker_state.specs.Plan.{IsPrepared};
ghost use Rattle.list_calls.specs.Found.{browsed};
ghost use Rattle.tracker_state.specs.State.{saved_as};

use crate::browsing::may_browse;
use crate::check::known_filter;
use crate::in_order::put_in_order;
use crate::listing::{count_of, end_of, keys_of};
use change_history::Issue;
use fields::{FilterNo, IssueNo, Memory, UserNo};
use std::alloc::Global;
use tracker_calls::{Answer, Part, Refusal};
use tracker_filters::Filter;
use tracker_state::{Prepared, State, part_of};

/// Tells a part of the issues of which the filter holds and which both the caller and its owner may browse, in the order that its
/// text asks for.
#[tactic(auto, unfolding(tracker_machine::specs::Filters::filter_meaning))]
pub fn filter(
    alloc: Global,
    state: &State,
    caller: UserNo,
    no: FilterNo,
    part: Part,
) -> Result<Prepared, Refusal>
    ensures { IsPrepared (filter_meaning state.now.machine caller.0 no part) state.now result }
{
    let filter = known_filter(alloc, state, no)?;
    let answer = told(alloc, state, caller, filter, part)?;
    Ok(Prepared::Tell(answer))
}

fn told(
    alloc: Global,
    state: &State,
    caller: UserNo,
    filter: &Filter,
    part: Part,
) -> Result<Answer, Memory>
    requires { by_number number filter.now.no.0 state.now.watched.filters ≡ Some filter.now }
    ensures { IfOk result (λ answer. answer
        ≡ filter_answer state.now.machine caller.0 part (saved_as filter.now)) }
{
    state.have_seen();
    let mut issues = shown(alloc, state, caller, filter)?;
    let total = count_of(&issues);
    put_in_order(alloc, state, &filter.query.order, end_of(part), &mut issues)?;
    let issues = keys_of(alloc, part_of(&issues, part))?;
    Ok(Answer::Filter { issues, total })
}

/// The issues of which the filter holds and which both the caller and its owner may browse, by number. None is asked: the cells
/// say of which it holds.
pub fn shown<'s>(
    alloc: Global,
    state: &'s State,
    caller: UserNo,
    filter: &Filter,
) -> Result<Vec<&'s Issue>, Memory>
    requires { by_number number filter.now.no.0 state.now.watched.filters ≡ Some filter.now }
    ensures { IfOk result (λ issues. map (λ i. i.now.history) issues.items
        ≡ shown state.now.machine caller.0 (saved_as filter.now)) }
{
    state.have_seen();
    let mut members = Vec::new(alloc);
    state.filters().members(filter.no, &mut members)?;
    browsed_of(alloc, state, filter.owner, caller, &members)
}

// Those of the numbered issues which both users may browse.
fn browsed_of<'s>(
    alloc: Global,
    state: &'s State,
    owner: UserNo,
    caller: UserNo,
    members: &[IssueNo],
) -> Result<Vec<&'s Issue>, Memory>
    ensures { IfOk result (λ issues. map (λ i. i.now.history) issues.items
        ≡ filter_map (browsed state.now.machine owner.0 caller.0) members.now) }
{
    let mut issues = Vec::new(alloc);
    for member in members {
        if let Some(issue) = browsed(state, owner, caller, *member) {
            issues.push(issue)?;
        }
    }
    Ok(issues)
}

// The issue of that number, where both users may browse it.
fn browsed(state: &State, owner: UserNo, caller: UserNo, no: IssueNo) -> Option<&Issue>
    ensures { option_map (λ i. i.now.history) result
        ≡ browsed state.now.machine owner.0 caller.0 no }
{
    let place = (no.0 as usize).saturating_sub(1);
    let issue = state.issue_at(place)?;
    if may_browse(state, owner, place) && may_browse(state, caller, place) {
        return Some(issue);
    }
    None
}
