// The call `edit`: fields of an issue become other values, as one change group.
ghost use Rattle.std.specs.Prelude.{◌≡◌, ◌<◌, ℕ, length, IfOk, Some};
ghost use Rattle.change_history.specs.History.{present};
ghost use Rattle.field_forms.specs.Known.{Names};
ghost use Rattle.workflow.specs.Difference.{AreNews};
ghost use Rattle.workflow.specs.Laws.{AllFit};
ghost use Rattle.workflow.specs.Net.{net_changes};
ghost use Rattle.tracker_machine.specs.Edit.{edit_refusal, edit_answer, edit_meaning, set_changes};
ghost use Rattle.tracker_machine.specs.Known.{place_of_issue};
ghost use Rattle.tracker_state.specs.Check.{Checks};
ghost use Rattle.tracker_state.specs.Plan.{IsPrepared};
ghost use Rattle.wanted_values.specs.InSprints.{AreOfSprints};
ghost use Rattle.issue_calls.specs.Group.{ComesToGroup, MayChange};

use crate::check::{check_bytes, check_closed, check_entries, check_set, known_values};
use crate::group::{DueGroup, GroupCall, due_group, ready};
use change_history::{Change, Issue};
use fields::{Permission, UserNo};
use std::alloc::Global;
use tracker_calls::{GivenField, Refusal};
use tracker_state::{Found, Prepared, State, check_access, known_issue};
use wanted_values::ResolvedSet;
use workflow::net_changes;

/// Prepares changes of fields of the issue, or says why not.
pub fn edit(
    alloc: Global,
    state: &mut State,
    caller: UserNo,
    issue: &str,
    set: &[GivenField],
) -> Result<Prepared, Refusal>
    requires { caller.0 < length state.old.machine.setup.users }
    ensures same { state.new.machine ≡ state.old.machine }
    ensures table { state.new.watched.views.table ≡ state.old.watched.views.table }
    ensures filters { state.new.watched.filters ≡ state.old.watched.filters }
    ensures prepared { IsPrepared (edit_meaning state.old.machine caller.0 issue.now set.now)
        state.new result }
{
    let given = ResolvedSet::of(alloc, state.setup(), set)?;
    let due = due_for(alloc, state, caller, issue, &given);
    drop(given);
    ready(alloc, state, GroupCall::Edit, issue, due?)
}

// What the edit comes to.
fn due_for(
    alloc: Global,
    state: &State,
    caller: UserNo,
    issue: &str,
    set: &ResolvedSet<'_>,
) -> Result<Option<DueGroup>, Refusal>
    requires setup { set.now.setup ≡ state.now.machine.setup }
    requires user { caller.0 < length state.now.machine.setup.users }
    ensures { ComesToGroup state.now.machine (edit_answer issue.now)
        (edit_meaning state.now.machine caller.0 issue.now set.now.set) result }
{
    let (found, net) = check_edit(alloc, state, caller, issue, set)?;
    match due_group(alloc, state, caller, found, net) {
        Ok(due) => Ok(due),
        Err(_) => Err(Refusal::Memory),
    }
}

// The issue, and what of its fields becomes another value.
fn check_edit<'a>(
    alloc: Global,
    state: &'a State,
    caller: UserNo,
    issue: &str,
    set: &ResolvedSet<'_>,
) -> Result<(Found<'a>, Vec<Change>), Refusal>
    requires setup { set.now.setup ≡ state.now.machine.setup }
    requires user { caller.0 < length state.now.machine.setup.users }
    // It passes only where nothing refuses the edit, and else names that cause, or want of memory.
    ensures check { Checks (edit_refusal state.now.machine caller.0 issue.now set.now.set) result }
    // The issue is the one of that name.
    ensures place { IfOk result (λ r. place_of_issue issue.now state.now.machine.histories
        ≡ Some r.0.place) }
    // Those changes stay that make a difference, and they may come.
    ensures net { IfOk result (λ r. r.1.items ≡ net_changes (present r.0.issue.now.history)
        (set_changes state.now.machine set.now.set)) }
    ensures may { IfOk result (λ r. MayChange state.now.machine caller.0 r.0.place
        r.0.issue.now.history r.1.items) }
{
    let found = known_issue(alloc, state, issue)?;
    check_set(alloc, state, set)?;
    check_access(alloc, state, caller, Permission::Browse, found)?;
    check_access(alloc, state, caller, Permission::Edit, found)?;
    check_closed(state, set, Some(found.issue))?;
    check_entries(state)?;
    check_bytes(state)?;
    let changes = known_values(alloc, state, set, None)?;
    Ok((found, news_of(found.issue, changes)))
}

// The values that differ from the present ones.
fn news_of(issue: &Issue, changes: Vec<Change>) -> Vec<Change>
    ensures net { result.items ≡ net_changes (present issue.now.history) changes.items }
    ensures news { AreNews (present issue.now.history) 0 result.items }
    ensures fitting { (names : Names) → AllFit names changes.items → AllFit names result.items }
    ensures sprints { (count : ℕ) → AreOfSprints count changes.items
        → AreOfSprints count result.items }
{
    net_changes(issue, changes)
}
