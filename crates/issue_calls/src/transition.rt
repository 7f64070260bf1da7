// The call `transition`: an issue goes to another status, as one change group with all that comes with it.
ghost use Rattle.std.specs.Prelude.{◌≡◌, ◌<◌, ℕ, length, slice_get, IfOk, Some, true};
ghost use Rattle.change_history.specs.History.{present};
ghost use Rattle.fields.specs.SetupParts.{names_in, parts};
ghost use Rattle.workflow.specs.Plan.{planned};
ghost use Rattle.workflow.specs.Difference.{AreNews};
ghost use Rattle.field_values.specs.declared.numbers.TheConstants.FieldNo.{REPORTER as reporter};
ghost use Rattle.workflow.specs.Laws.{AllFit, IsSoundTransition};
ghost use Rattle.tracker_machine.specs.Known.{place_of_issue};
ghost use Rattle.tracker_machine.specs.Transition.{transition_named, transition_refusal, transition_meaning, condition_refusal, validator_refusal, plan_refusal, transition_answer, transition_news};
ghost use Rattle.tracker_state.specs.Check.{Checks};
ghost use Rattle.tracker_machine.specs.Tracker.{Holds};
ghost use Rattle.field_forms.specs.SoundRules.{rules_are_sound};
ghost use Rattle.wanted_values.specs.InSprints.{GivesKnownSprint, AreOfSprints};
ghost use Rattle.tracker_state.specs.Plan.{IsPrepared};
ghost use Rattle.issue_calls.specs.Group.{ComesToGroup, MayChange};

use crate::check::{
    check_bytes, check_closed, check_entries, check_set, known_transition, known_values,
};
use crate::group::{DueGroup, GroupCall, due_group, ready};
use change_history::{Change, Issue};
use fields::{Memory, Permission, Setup, Transition, UserNo};
use std::alloc::Global;
use tracker_calls::{Cause, GivenField, Refusal};
use tracker_state::{Found, Prepared, State, check_access, known_issue};
use wanted_values::ResolvedSet;
use workflow::{failing_condition, failing_validator, planned};

/// Prepares the transition of that name, or says why not.
pub fn transition(
    alloc: Global,
    state: &mut State,
    caller: UserNo,
    issue: &str,
    transition: &str,
    set: &[GivenField],
) -> Result<Prepared, Refusal>
    requires { caller.0 < length state.old.machine.setup.users }
    ensures same { state.new.machine ≡ state.old.machine }
    ensures table { state.new.watched.views.table ≡ state.old.watched.views.table }
    ensures filters { state.new.watched.filters ≡ state.old.watched.filters }
    ensures prepared { IsPrepared (transition_meaning state.old.machine caller.0 issue.now
        transition.now set.now) state.new result }
{
    let given = ResolvedSet::of(alloc, state.setup(), set)?;
    let due = due_for(alloc, state, caller, issue, transition, &given);
    drop(given);
    ready(alloc, state, GroupCall::Transition, issue, due?)
}

// What the transition comes to.
fn due_for(
    alloc: Global,
    state: &State,
    caller: UserNo,
    issue: &str,
    transition: &str,
    set: &ResolvedSet<'_>,
) -> Result<Option<DueGroup>, Refusal>
    requires setup { set.now.setup ≡ state.now.machine.setup }
    requires user { caller.0 < length state.now.machine.setup.users }
    ensures { ComesToGroup state.now.machine (transition_answer issue.now) (transition_meaning
        state.now.machine caller.0 issue.now transition.now set.now.set) result }
{
    let (found, net) = check_transition(alloc, state, caller, issue, transition, set)?;
    match due_group(alloc, state, caller, found, net) {
        Ok(due) => Ok(due),
        Err(_) => Err(Refusal::Memory),
    }
}

// The issue, and what the transition changes of it.
fn check_transition<'a>(
    alloc: Global,
    state: &'a State,
    caller: UserNo,
    issue: &str,
    transition: &str,
    set: &ResolvedSet<'_>,
) -> Result<(Found<'a>, Vec<Change>), Refusal>
    // The names were read by this tracker's setup, and the caller is a user.
    requires setup { set.now.setup ≡ state.now.machine.setup }
    requires user { caller.0 < length state.now.machine.setup.users }
    // It passes only where nothing refuses the transition, and else names that cause, or want of
    // memory.
    ensures check { Checks (transition_refusal state.now.machine caller.0 issue.now transition.now
        set.now.set) result }
    // The issue is the one of that name.
    ensures place { IfOk result (λ r. place_of_issue issue.now state.now.machine.histories
        ≡ Some r.0.place) }
    // What changes is what the transition makes of the issue, and it may come.
    ensures net { IfOk result (λ r. r.1.items
        ≡ transition_news state.now.machine caller.0 set.now.set (Some r.0.issue.now.history)
        (transition_named state.now.machine transition.now)) }
    ensures may { IfOk result (λ r. MayChange state.now.machine caller.0 r.0.place
        r.0.issue.now.history r.1.items) }
{
    let found = known_issue(alloc, state, issue)?;
    let number = known_transition(alloc, state, transition)?;
    check_set(alloc, state, set)?;
    check_access(alloc, state, caller, Permission::Browse, found)?;
    check_access(alloc, state, caller, Permission::Transition, found)?;
    check_closed(state, set, Some(found.issue))?;
    check_entries(state)?;
    check_bytes(state)?;
    let net = check_plan(alloc, state, caller, found, number, set)?;
    Ok((found, net))
}

// What the transition changes, unless one of its checks fails.
fn check_plan(
    alloc: Global,
    state: &State,
    caller: UserNo,
    found: Found<'_>,
    transition: usize,
    set: &ResolvedSet<'_>,
) -> Result<Vec<Change>, Refusal>
    // The names were read by this tracker's setup, and caller, issue, transition and a sprint that
    // is given are there.
    requires setup { set.now.setup ≡ state.now.machine.setup }
    requires user { caller.0 < length state.now.machine.setup.users }
    requires there { slice_get state.now.machine.histories found.place
        ≡ Some found.issue.now.history }
    requires named { transition < length state.now.machine.setup.transition }
    requires known { GivesKnownSprint state.now.machine set.now.set }
    // It passes only where conditions, values and validators hold, and else names the first that
    // doesn't, or want of memory.
    ensures check { Checks (plan_refusal state.now.machine caller.0 set.now.set
        (Some found.entry.issue.now.history)
        (slice_get state.now.machine.setup.transition transition)) result }
    // What changes is what the transition makes of the issue: other values than the present ones,
    // which fit and name no missing sprint.
    ensures net { IfOk result (λ net. net.items
        ≡ transition_news state.now.machine caller.0 set.now.set
        (Some found.entry.issue.now.history)
        (slice_get state.now.machine.setup.transition transition)) }
    ensures news { IfOk result (λ net.
        AreNews (present found.entry.issue.now.history) 0 net.items) }
    ensures fitting { IfOk result (λ net. AllFit (names_in state.now.machine.setup) net.items) }
    ensures sprints { IfOk result (λ net.
        AreOfSprints (length state.now.machine.sprints) net.items) }
{
    state.is_tracker();
    let transition = &state.setup().transition.as_slice()[transition];
    plan_of(alloc, state, caller, found.issue, transition, set)
}

// The same of an issue and a transition that are there.
fn plan_of(
    alloc: Global,
    state: &State,
    caller: UserNo,
    issue: &Issue,
    transition: &Transition,
    set: &ResolvedSet<'_>,
) -> Result<Vec<Change>, Refusal>
    // The names were read by this tracker's setup, in which the transition and its rules are sound.
    requires setup { set.now.setup ≡ state.now.machine.setup }
    requires sound { IsSoundTransition state.now.machine.setup transition.now }
    requires rules { rules_are_sound (names_in state.now.machine.setup) transition.now ≡ true }
    // A sprint that is given and the caller are there, and the issue's reporter fits, if it has
    // one.
    requires known { GivesKnownSprint state.now.machine set.now.set }
    requires user { caller.0 < length state.now.machine.setup.users }
    requires reporter { Holds (names_in state.now.machine.setup) reporter
        (present issue.now.history reporter) }
    // It passes only where conditions, values and validators hold, and else names the first that
    // doesn't, or want of memory.
    ensures check { Checks (plan_refusal state.now.machine caller.0 set.now.set
        (Some issue.now.history) (Some transition.now)) result }
    // What changes is what the transition makes of the issue: other values than the present ones,
    // which fit and name no missing sprint.
    ensures net { IfOk result (λ net. net.items
        ≡ transition_news state.now.machine caller.0 set.now.set (Some issue.now.history)
        (Some transition.now)) }
    ensures news { IfOk result (λ net. AreNews (present issue.now.history) 0 net.items) }
    ensures fitting { IfOk result (λ net. AllFit (names_in state.now.machine.setup) net.items) }
    ensures sprints { IfOk result (λ net.
        AreOfSprints (length state.now.machine.sprints) net.items) }
{
    check_conditions(state, caller, issue, transition)?;
    let inputs = known_values(alloc, state, set, None)?;
    check_validators(state, caller, issue, transition, inputs.as_slice())?;
    let net = news_of(alloc, state.setup(), caller, issue, transition, inputs)?;
    Ok(net)
}

fn check_conditions(
    state: &State,
    caller: UserNo,
    issue: &Issue,
    transition: &Transition,
) -> Result<(), Refusal>
    ensures { Checks (condition_refusal state.now.machine caller.0 (Some issue.now.history)
        (Some transition.now)) result }
{
    match failing_condition(state.setup(), issue, caller, transition) {
        Some(index) => Err(Refusal::Cause(Cause::Condition { index })),
        None => Ok(()),
    }
}

fn check_validators(
    state: &State,
    caller: UserNo,
    issue: &Issue,
    transition: &Transition,
    inputs: &[Change],
) -> Result<(), Refusal>
    ensures { Checks (validator_refusal state.now.machine caller.0 inputs.now
        (Some issue.now.history) (Some transition.now)) result }
{
    match failing_validator(
        state.setup(),
        issue,
        caller,
        transition,
        inputs,
        state.moment(),
    ) {
        Some(index) => Err(Refusal::Cause(Cause::Validator { index })),
        None => Ok(()),
    }
}

// What the transition changes of the present values.
#[tactic(auto, using(workflow::proofs::FitPlans::planned_news, workflow::proofs::FitPlans::planned_fit, crate::proofs::Holding::reporter_fits))]
fn news_of(
    alloc: Global,
    setup: &Setup,
    caller: UserNo,
    issue: &Issue,
    transition: &Transition,
    inputs: Vec<Change>,
) -> Result<Vec<Change>, Memory>
    // The transition and its rules are sound in this setup.
    requires sound { IsSoundTransition (parts setup.now) transition.now }
    requires rules { rules_are_sound (names_in (parts setup.now)) transition.now ≡ true }
    // The caller is a user, and what stands in the issue as reporter and what is put in fit.
    requires user { caller.0 < length setup.now.users }
    requires reporter { Holds (names_in (parts setup.now)) reporter
        (present issue.now.history reporter) }
    requires inputs { AllFit (names_in (parts setup.now)) inputs.items }
    // What changes is what the transition plans, each to another value than the present one.
    ensures net { IfOk result (λ net. net.items
        ≡ planned (parts setup.now) issue.now.history caller transition.now inputs.items) }
    ensures news { IfOk result (λ net. AreNews (present issue.now.history) 0 net.items) }
    // It fits, and names no missing sprint where what is put in names none.
    ensures fitting { IfOk result (λ net. AllFit (names_in (parts setup.now)) net.items) }
    ensures sprints { IfOk result (λ net. (count : ℕ) →
        AreOfSprints count inputs.items → AreOfSprints count net.items) }
{
    planned(alloc, setup, issue, caller, transition, inputs)
}
