// The call `drop_filter`: a saved filter goes, and its boards with it.
ghost use Rattle.std.specs.Prelude.{Some};
ghost use Rattle.tracker_machine.specs.Filters.{owner_refusal, drop_filter_refusal, drop_filter_meaning};
ghost use Rattle.tracker_state.specs.Check.{Checks};
ghost use Rattle.tracker_state.specs.Plan.{IsPrepared};
ghost use Rattle.tracker_state.specs.State.{saved_as};

use crate::check::known_filter;
use crate::rows::drop_filter_ops;
use fields::{FilterNo, Permission, UserNo};
use std::alloc::Global;
use tracker_calls::{Answer, Refusal};
use tracker_filters::Filter;
use tracker_state::{Plan, Prepared, State, check_permission};

/// Prepares that the filter goes with its boards, or says why not.
pub fn drop_filter(
    alloc: Global,
    state: &State,
    caller: UserNo,
    no: FilterNo,
) -> Result<Prepared, Refusal>
    ensures { IsPrepared (drop_filter_meaning state.now.machine caller.0 no) state.now result }
{
    check_drop(alloc, state, caller, no)?;
    let rows = drop_filter_ops(alloc, no, state.boards().as_slice())?;
    Ok(Prepared::Make {
        plan: Plan::DropFilter(no),
        answer: Answer::DropFilter { filter: no },
        rows,
    })
}

// The filter is there, and the caller may drop it.
fn check_drop(alloc: Global, state: &State, caller: UserNo, no: FilterNo) -> Result<(), Refusal>
    ensures { Checks (drop_filter_refusal state.now.machine caller.0 no) result }
{
    let filter = known_filter(alloc, state, no)?;
    check_owner(alloc, state, caller, filter)
}

// The caller owns the filter, or may administer the tracker.
fn check_owner(alloc: Global, state: &State, caller: UserNo, filter: &Filter) -> Result<(), Refusal>
    ensures { Checks (owner_refusal state.now.machine caller.0 (Some (saved_as filter.now)))
        result }
{
    if filter.owner.0 == caller.0 {
        return Ok(());
    }
    check_permission(alloc, state, caller, Permission::Administer, None)
}
