// The call `create`: a new issue of a project, or what is told of the one that has its external id already.
ghost use Rattle.std.specs.Prelude.{◌≡◌, ◌<◌, ◌≤◌, ℕ, List, Option, length, option_map, IfOk, IfSome, Some, None, true, ◌-◌};
ghost use Rattle.std.specs.Option.{option_copied};
ghost use Rattle.field_forms.specs.Names.{place_named};
ghost use Rattle.tracker_limits.specs.Limits.{most_issues, most_text_bytes, text_reserve};
ghost use Rattle.fields.specs.SetupParts.{names_in};
ghost use Rattle.workflow.specs.Laws.{AllFit};
ghost use Rattle.external_ids.specs.Form.{is_external};
ghost use Rattle.tracker_machine.specs.Checks.{bytes_kept};
ghost use Rattle.tracker_machine.specs.Create.{create_wants, create_refusal, create_or_tell, create_meaning, issue_called, new_issue_meaning, new_issue_refusal, filled};
ghost use Rattle.tracker_machine.specs.Effect.{MayName};
ghost use Rattle.tracker_machine.specs.Known.{project_keys};
ghost use Rattle.tracker_machine.specs.Wanted.{changes_of};
ghost use Rattle.tracker_state.specs.Check.{Checks};
ghost use Rattle.tracker_state.specs.Plan.{IsPrepared};
ghost use Rattle.issue_calls.specs.Create.{ComesTo, key_of_project};
ghost use Rattle.wanted_values.specs.InSprints.{GivesKnownSprint, AreOfSprints};
ghost use Rattle.wanted_values.specs.Weight.{AreLight};
ghost use Rattle.change_history.specs.History.{opening_value};
ghost use Rattle.tracker_keeper.specs.Forms.{are_opening};
ghost use Rattle.tracker_machine.specs.Tracker.{AreNamed, AreSmall};

use crate::check::{
    check_bytes, check_closed, check_issues, check_set, known_project, known_values,
};
use crate::due::{Due, NewValues};
use crate::external::told_before;
use crate::new_issue::place_last;
use change_history::{Change, Issue};
use fields::{Permission, ProjectNo, UserNo};
use std::alloc::Global;
use tracker_calls::{GivenField, Refusal};
use tracker_state::{Prepared, State, check_permission};
use wanted_values::{Opening, ResolvedSet, fitting_is_light};

/// Prepares a new issue of the project, tells of the one that was created so before, or says why not.
pub fn create(
    alloc: Global,
    state: &mut State,
    caller: UserNo,
    project: &str,
    issue_type: &str,
    summary: &str,
    set: &[GivenField],
    external: Option<&str>,
) -> Result<Prepared, Refusal>
    // The caller is a user, and an external id that is given has its form.
    requires caller { caller.0 < length state.old.machine.setup.users }
    requires external { IfSome external (λ id. is_external id.now ≡ true) }
    // Nothing changes yet: not the tracker, nor the filters and their verdicts.
    ensures same { state.new.machine ≡ state.old.machine }
    ensures table { state.new.watched.views.table ≡ state.old.watched.views.table }
    ensures filters { state.new.watched.filters ≡ state.old.watched.filters }
    // What is prepared is what the call means.
    ensures prepared { IsPrepared (create_meaning state.old.machine caller.0 project.now
        issue_type.now summary.now set.now (option_copied external.entry)) state.new result }
{
    let given = ResolvedSet::of(alloc, state.setup(), set)?;
    let opening = Opening {
        caller,
        issue_type,
        summary,
    };
    let due = due_for(alloc, state, project, opening, &given, external);
    drop(given);
    match due? {
        Due::New(new) => place_last(alloc, state, caller, new, external),
        Due::Told(answer) => Ok(Prepared::Tell(answer)),
    }
}

// What the create comes to.
fn due_for(
    alloc: Global,
    state: &State,
    project: &str,
    opening: Opening<'_>,
    set: &ResolvedSet<'_>,
    external: Option<&str>,
) -> Result<Due, Refusal>
    requires setup { set.now.setup ≡ state.now.machine.setup }
    requires external { IfSome external (λ id. is_external id.now ≡ true) }
    ensures { ComesTo state.now.machine opening.entry.caller.0 (option_copied external.entry)
        (create_meaning state.now.machine opening.entry.caller.0 project.now
        opening.entry.issue_type.now opening.entry.summary.now set.now.set
        (option_copied external.entry)) result }
{
    let place = check_create(alloc, state, opening.caller, project, set)?;
    due_in(alloc, state, place, opening, set, external)
}

// The project, where the caller may create issues that `set` begins so.
fn check_create(
    alloc: Global,
    state: &State,
    caller: UserNo,
    project: &str,
    set: &ResolvedSet<'_>,
) -> Result<ProjectNo, Refusal>
    requires { set.now.setup ≡ state.now.machine.setup }
    ensures check { Checks (create_refusal state.now.machine caller.0 project.now set.now.set)
        result }
    ensures place { IfOk result (λ no.
        place_named project.now (project_keys state.now.machine.setup) ≡ Some no.0) }
    ensures there { IfOk result (λ no. no.0 < length state.now.machine.setup.project) }
    ensures known { IfOk result (λ no. GivesKnownSprint state.now.machine set.now.set) }
{
    let place = known_project(alloc, state, project)?;
    check_set(alloc, state, set)?;
    check_permission(alloc, state, caller, Permission::Browse, Some(place))?;
    check_permission(alloc, state, caller, Permission::Create, Some(place))?;
    check_closed(state, set, None)?;
    Ok(place)
}

// What it comes to in its project, once its names and the caller's permissions are checked.
fn due_in(
    alloc: Global,
    state: &State,
    project: ProjectNo,
    opening: Opening<'_>,
    set: &ResolvedSet<'_>,
    external: Option<&str>,
) -> Result<Due, Refusal>
    requires setup { set.now.setup ≡ state.now.machine.setup }
    requires there { project.0 < length state.now.machine.setup.project }
    requires known { GivesKnownSprint state.now.machine set.now.set }
    requires external { IfSome external (λ id. is_external id.now ≡ true) }
    ensures { ComesTo state.now.machine opening.entry.caller.0 (option_copied external.entry)
        (create_or_tell state.now.machine opening.entry.caller.0
        (key_of_project state.now.machine project)
        opening.entry.issue_type.now opening.entry.summary.now set.now.set
        (option_copied external.entry)
        (issue_called state.now.machine (option_copied external.entry))) result }
{
    match called(state, external) {
        Some((issue, id)) => match told_before(alloc, state, issue, project, opening, id) {
            Ok(answer) => Ok(Due::Told(answer)),
            Err(refusal) => Err(refusal),
        },
        None => new_values(alloc, state, project, opening, set),
    }
}

// The issue that has the external id, and that id, where an issue has it.
fn called<'a>(state: &'a State, external: Option<&'a str>) -> Option<(&'a Issue, &'a str)>
    requires { IfSome external (λ id. is_external id.now ≡ true) }
    ensures issue { option_map (λ r. r.0.now.history) result
        ≡ issue_called state.now.machine (option_copied external.entry) }
    ensures id { IfSome result (λ r. option_copied external.entry ≡ Some r.1.now) }
    ensures none { result ≡ None
        → MayName state.now.machine.externals (option_copied external.entry) }
{
    let id = external?;
    let issue = state.issue_called(id)?;
    Some((issue, id))
}

// The values of a new issue of the project.
fn new_values(
    alloc: Global,
    state: &State,
    project: ProjectNo,
    opening: Opening<'_>,
    set: &ResolvedSet<'_>,
) -> Result<Due, Refusal>
    requires setup { set.now.setup ≡ state.now.machine.setup }
    requires there { project.0 < length state.now.machine.setup.project }
    requires known { GivesKnownSprint state.now.machine set.now.set }
    ensures { (external : Option (List ℕ)) → MayName state.now.machine.externals external
        → ComesTo state.now.machine opening.entry.caller.0 external
        (new_issue_meaning state.now.machine opening.entry.caller.0
        (key_of_project state.now.machine project)
        opening.entry.issue_type.now opening.entry.summary.now set.now.set external) result }
{
    let changes = check_values(alloc, state, opening, set)?;
    Ok(Due::New(NewValues { project, changes }))
}

// What the new issue's fields become, for which there is room.
fn check_values(
    alloc: Global,
    state: &State,
    opening: Opening<'_>,
    set: &ResolvedSet<'_>,
) -> Result<Vec<Change>, Refusal>
    // The names were read by this tracker's setup, and a sprint that is given is there.
    requires setup { set.now.setup ≡ state.now.machine.setup }
    requires known { GivesKnownSprint state.now.machine set.now.set }
    // It passes only where nothing refuses a new issue of these values, and else names that cause,
    // or want of memory.
    ensures check { Checks (new_issue_refusal state.now.machine opening.entry.caller.0
        opening.entry.issue_type.now opening.entry.summary.now set.now.set) result }
    // The fields become what is wanted of them, which fits and names no missing sprint.
    ensures changes { IfOk result (λ changes. changes.items
        ≡ changes_of (names_in state.now.machine.setup)
        (create_wants state.now.machine.setup opening.entry.caller.0
        opening.entry.issue_type.now opening.entry.summary.now set.now.set)) }
    ensures fitting { IfOk result (λ changes.
        AllFit (names_in state.now.machine.setup) changes.items) }
    ensures sprints { IfOk result (λ changes.
        AreOfSprints (length state.now.machine.sprints) changes.items) }
    // An issue may open so: it has its type, summary and status, and its row can list the values.
    ensures named { IfOk result (λ changes. AreNamed (opening_value (filled changes.items))) }
    ensures listed { IfOk result (λ changes. AreSmall (filled changes.items)
        → are_opening (names_in state.now.machine.setup) (filled changes.items) ≡ true) }
    // There is room for one issue more and its texts, which are no more than a call may bring.
    ensures few { IfOk result (λ changes. length state.now.machine.histories < most_issues) }
    ensures light { IfOk result (λ changes.
        bytes_kept state.now.machine.histories ≤ most_text_bytes - text_reserve) }
    ensures slight { IfOk result (λ changes. AreLight (filled changes.items)) }
{
    fitting_is_light(state.setup());
    check_issues(state)?;
    check_bytes(state)?;
    let changes = known_values(alloc, state, set, Some(opening))?;
    Ok(changes)
}
