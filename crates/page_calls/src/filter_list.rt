// The call `filters`: the saved filters that a caller is told.
ghost use Rattle.std.specs.Prelude.{◌≡◌, IfOk, map, filter, length};
ghost use Rattle.fields.specs.Naming.{name_at};
ghost use Rattle.tracker_machine.specs.Overviews.{filters_answer, filters_meaning, filters_told};
ghost use Rattle.tracker_machine.specs.Overviews.{is_told, told_filter};
ghost use Rattle.tracker_state.specs.Plan.{IsPrepared};
ghost use Rattle.tracker_state.specs.State.{saved_as, saved_filters};

use fields::{Memory, Permission, Setup, UserNo};
use std::alloc::Global;
use tracker_calls::{Answer, Part, Refusal, ToldFilter, ToldFilters, ToldText};
use tracker_filters::Filter;
use tracker_state::{Prepared, State, part_of};

/// Tells a part of the caller's own filters, or of all where he may administer the tracker.
pub fn filters(
    alloc: Global,
    state: &State,
    caller: UserNo,
    part: Part,
) -> Result<Prepared, Refusal>
    ensures { IsPrepared (filters_meaning state.now.machine caller.0 part) state.now result }
{
    let answer = answered(alloc, state, caller, part)?;
    Ok(Prepared::Tell(answer))
}

fn answered(alloc: Global, state: &State, caller: UserNo, part: Part) -> Result<Answer, Memory>
    ensures { IfOk result (λ answer. answer ≡ filters_answer state.now.machine caller.0 part) }
{
    let all = filters_told(alloc, state, caller)?;
    let filters = told_filters(alloc, state.setup(), part_of(&all, part))?;
    Ok(Answer::Filters {
        filters,
        total: all.len() as u64,
    })
}

// The filters that the caller is told.
fn filters_told<'s>(
    alloc: Global,
    state: &'s State,
    caller: UserNo,
) -> Result<Vec<&'s Filter>, Memory>
    ensures { IfOk result (λ filters. map (λ f. saved_as f.now) filters.items
        ≡ filters_told state.now.machine caller.0) }
{
    state.have_seen();
    let administers = state.may(caller, Permission::Administer, None);
    told_among(alloc, state.filters().as_slice(), caller, administers)
}

fn told_among<'s>(
    alloc: Global,
    all: &'s [Filter],
    caller: UserNo,
    administers: bool,
) -> Result<Vec<&'s Filter>, Memory>
    ensures { IfOk result (λ filters. map (λ f. saved_as f.now) filters.items
        ≡ filter (is_told caller.0 administers) (saved_filters all.now)) }
{
    let mut told = Vec::new(alloc);
    for filter in all {
        if is_told(filter, caller, administers) {
            told.push(filter)?;
        }
    }
    Ok(told)
}

fn is_told(filter: &Filter, caller: UserNo, administers: bool) -> bool
    ensures { result ≡ is_told caller.0 administers (saved_as filter.now) }
{
    filter.owner.0 == caller.0 || administers
}

fn told_filters(alloc: Global, setup: &Setup, filters: &[&Filter]) -> Result<ToldFilters, Memory>
    ensures { IfOk result
        (λ told. told ≡ map (λ f. told_filter setup.now.users (saved_as f.now)) filters.now) }
{
    let mut told = ToldFilters::new(alloc);
    for filter in filters {
        told.push(told_filter(alloc, setup, *filter)?)?;
    }
    Ok(told)
}

fn told_filter(alloc: Global, setup: &Setup, filter: &Filter) -> Result<ToldFilter, Memory>
    ensures { IfOk result
        (λ told. told ≡ told_filter setup.now.users (saved_as filter.now)) }
{
    let jql = filter.text.copy(alloc)?;
    let name = filter.name.copy(alloc)?;
    let owner = ToldText::copy_of(alloc, name_of(setup, filter.owner))?;
    Ok(ToldFilter {
        filter: filter.no,
        jql,
        name,
        owner,
    })
}

fn name_of(setup: &Setup, user: UserNo) -> &str
    ensures { result.now ≡ name_at setup.now.users user.0 }
{
    match setup.users.as_slice().get(usize::from(user.0)) {
        Some(name) => name.as_str(),
        None => "",
    }
}
