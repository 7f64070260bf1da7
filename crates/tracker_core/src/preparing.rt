// What is done before anything is kept: looks, refusals, and all memory.
ghost use Rattle.std.specs.Prelude.{◌≡◌, ◌≤◌, ◌<◌, ◌+◌, false, None, Ok, length, option_map, IfOk};
ghost use Rattle.std.specs.Option.{option_copied};
ghost use Rattle.tracker_calls.specs.Part.{part_fault};
ghost use Rattle.tracker_machine.specs.Checks.{or_then, count_refusal, external_refusal, few_fields_refusal, few_refusal, other_refusal, part_refusal, title_refusal, twins_refusal};
ghost use Rattle.tracker_machine.specs.Step.{meaning, meaning_for, form_refusal};
ghost use Rattle.tracker_state.specs.Plan.{IsPrepared, cost_to_prepare};
ghost use Rattle.tracker_state.specs.declared.plan.Prepared.{Prepared};
ghost use Rattle.tracker_core.specs.Counts.{searches, asked_before};

use external_ids::is_external;
use field_forms::name_form::is_title;
use fields::{Memory, Names, Steps, Text, UserNo};
use issue_calls::create::create;
use issue_calls::edit::edit;
use issue_calls::history::history;
use issue_calls::show::show;
use issue_calls::transition::transition;
use list_calls::board_issues::board;
use list_calls::drop_board::drop_board;
use list_calls::drop_filter::drop_filter;
use list_calls::filter_issues::filter;
use list_calls::make_board::make_board;
use list_calls::save_filter::save_filter;
use list_calls::search::search;
use page_calls::board_list::boards;
use page_calls::describe::describe;
use page_calls::filter_list::filters;
use page_calls::issue_list::list;
use page_calls::sprint_list::sprints;
use rank_calls::moves::{move_after, move_before};
use rank_calls::ranks::ranks;
use rank_calls::rebalance::{balance, rebalance_start, rebalance_step};
use setting_calls::make_sprint::make_sprint;
use setting_calls::remaining::burndown;
use setting_calls::set_group::set_group;
use setting_calls::tick::tick;
use setting_calls::turn_sprint::{close_sprint, start_sprint};
use std::alloc::Global;
use std::sync::ledger::Ledger;
use tracker_calls::{
    Call, Cause, GivenField, MOST_ENTRIES, MOST_FIELDS, MOST_FROM, MOST_LISTED, MOST_MEMBERS,
    MOST_SHOWN, Part, Refusal, Thing, UserName, has_twins,
};
use tracker_state::{Prepared, State, malformed, unknown};

/// Prepares a call of somebody of that name: the tracker stays as it is, and there is room for what the call makes.
#[tactic(auto, unfolding(tracker_machine::specs::Step::meaning))]
pub fn prepare<L: Ledger>(
    alloc: Global,
    state: &mut State,
    caller: &UserName,
    call: &Call,
    steps: &mut Steps<L>,
) -> Result<Prepared, Refusal>
    // The tracker stays as it is, and what is prepared is what the call means.
    ensures same { state.new.machine ≡ state.old.machine }
    ensures prepared { IsPrepared (meaning state.old.machine caller.now call.now) state.new result }
    // The filters and their verdicts stay.
    ensures table { state.new.watched.views.table ≡ state.old.watched.views.table }
    ensures filters { state.new.watched.filters ≡ state.old.watched.filters }
    // Queries are asked no more often than the call allows, and just as often as such a call asks
    // first where it's prepared and neither a search nor a list.
    ensures steps { steps.new ≤ steps.old + cost_to_prepare
        (meaning state.old.machine caller.now call.now) state.old.machine }
    ensures exact { (prepared : Prepared) → result ≡ Ok prepared → searches call.now ≡ false
        → steps.new ≡ steps.old + asked_before call.now state.old.machine }
{
    match fault_of_form(alloc, call) {
        Ok(None) => {}
        Ok(Some(member)) => return Err(malformed(alloc, member)),
        Err(_) => return Err(Refusal::Memory),
    }
    let Some(user) = state.user_named(caller.as_str()) else {
        return Err(unknown(alloc, Thing::User, caller.as_str()));
    };
    prepare_for(alloc, state, user, call, steps)
}

// Prepares a call of that user.
#[tactic(auto, unfolding(tracker_machine::specs::Step::meaning_for))]
fn prepare_for<L: Ledger>(
    alloc: Global,
    state: &mut State,
    user: UserNo,
    call: &Call,
    steps: &mut Steps<L>,
) -> Result<Prepared, Refusal>
    // The caller is a user, and each member of the call has its form.
    requires user { user.0 < length state.old.machine.setup.users }
    requires form { form_refusal call.now ≡ None }
    // The tracker stays as it is, and what is prepared is what the call means.
    ensures same { state.new.machine ≡ state.old.machine }
    ensures prepared { IsPrepared (meaning_for state.old.machine user.0 call.now) state.new result }
    // The filters and their verdicts stay.
    ensures table { state.new.watched.views.table ≡ state.old.watched.views.table }
    ensures filters { state.new.watched.filters ≡ state.old.watched.filters }
    // Queries are asked no more often than the call allows, and just as often as such a call asks
    // first where it's prepared and neither a search nor a list.
    ensures steps { steps.new ≤ steps.old + cost_to_prepare
        (meaning_for state.old.machine user.0 call.now) state.old.machine }
    ensures exact { (prepared : Prepared) → result ≡ Ok prepared → searches call.now ≡ false
        → steps.new ≡ steps.old + asked_before call.now state.old.machine }
{
    match call {
        Call::Create {
            project,
            issue_type,
            summary,
            set,
            external,
        } => create(
            alloc,
            state,
            user,
            project.as_str(),
            issue_type.as_str(),
            summary.as_str(),
            set.as_slice(),
            text_of(external),
        ),
        Call::Edit { issue, set } => edit(alloc, state, user, issue.as_str(), set.as_slice()),
        Call::Transition {
            issue,
            transition: name,
            set,
        } => transition(
            alloc,
            state,
            user,
            issue.as_str(),
            name.as_str(),
            set.as_slice(),
        ),
        Call::Tick { to } => tick(alloc, state, *to),
        Call::Show { issue } => show(alloc, state, user, issue.as_str()),
        Call::History { issue, part } => history(alloc, state, user, issue.as_str(), *part),
        Call::Search { jql, part } => search(alloc, state, user, jql.as_str(), *part, steps),
        Call::MoveBefore { issue, other } => {
            move_before(alloc, state, user, issue.as_str(), other.as_str())
        }
        Call::MoveAfter { issue, other } => {
            move_after(alloc, state, user, issue.as_str(), other.as_str())
        }
        Call::Ranks { part } => ranks(alloc, state, user, *part),
        Call::RebalanceStart => rebalance_start(alloc, state, user),
        Call::RebalanceStep { count } => rebalance_step(alloc, state, user, *count),
        Call::Balance => balance(state),
        Call::SaveFilter { name, jql } => {
            save_filter(alloc, state, user, name.as_str(), jql.as_str(), steps)
        }
        Call::DropFilter { filter } => drop_filter(alloc, state, user, *filter),
        Call::Filter { filter: no, part } => filter(alloc, state, user, *no, *part),
        Call::MakeBoard { name, filter } => {
            make_board(alloc, state, user, name.as_str(), *filter)
        }
        Call::DropBoard { board } => drop_board(alloc, state, user, *board),
        Call::Board { board: no, part } => board(alloc, state, user, *no, *part),
        Call::MakeSprint { name } => make_sprint(alloc, state, user, name.as_str()),
        Call::StartSprint { sprint } => start_sprint(alloc, state, user, *sprint),
        Call::CloseSprint { sprint } => close_sprint(alloc, state, user, *sprint),
        Call::SetGroup { group, members } => {
            set_group(alloc, state, user, group.as_str(), members.as_slice())
        }
        Call::Burndown { sprint, part } => burndown(alloc, state, user, *sprint, *part),
        Call::List { jql, fields, part } => list(
            alloc,
            state,
            user,
            jql.as_str(),
            fields,
            *part,
            steps,
        ),
        Call::Filters { part } => filters(alloc, state, user, *part),
        Call::Boards { part } => boards(alloc, state, *part),
        Call::Sprints { part } => sprints(alloc, state, *part),
        Call::Describe => describe(alloc, state, user),
    }
}

// The member of a part that is out of range, which no line gives.
fn part_fault(part: Part, most: u32) -> Option<&'static str>
    ensures { option_map (λ name. name.now) result ≡ part_fault most part }
{
    if part.from > MOST_FROM {
        return Some("from");
    }
    if part.count < 1 || most < part.count {
        return Some("count");
    }
    None
}

/// More fields than a call may name, which no line does, and then a part that is out of range.
pub fn list_fault(fields: &Option<Names>, part: Part) -> Option<&'static str>
    ensures { option_map (λ name. Cause.Form name.now) result
        ≡ or_then (few_fields_refusal fields.now) (part_refusal 100 part) }
{
    match fields {
        Some(names) if names.as_slice().len() > MOST_FIELDS => Some("fields"),
        _ => part_fault(part, MOST_SHOWN),
    }
}

// Two names in `set` that differ in case alone, which no line gives.
fn twins_fault(alloc: Global, set: &[GivenField]) -> Result<Option<&'static str>, Memory>
    ensures { IfOk result
        (λ fault. option_map (λ name. Cause.Form name.now) fault ≡ twins_refusal set.now) }
{
    if has_twins(alloc, set)? {
        return Ok(Some("set"));
    }
    Ok(None)
}

// The same of a create, and then an external id that isn't of its form.
fn create_fault(
    alloc: Global,
    set: &[GivenField],
    external: &Option<Text>,
) -> Result<Option<&'static str>, Memory>
    ensures { IfOk result (λ fault. option_map (λ name. Cause.Form name.now) fault
        ≡ or_then (twins_refusal set.now) (external_refusal external.now)) }
{
    if has_twins(alloc, set)? {
        return Ok(Some("set"));
    }
    Ok(external_fault(external))
}

// An external id that isn't of its form, which no line gives.
fn external_fault(external: &Option<Text>) -> Option<&'static str>
    ensures { option_map (λ name. Cause.Form name.now) result ≡ external_refusal external.now }
{
    match external {
        Some(id) if !is_external(id.as_str()) => Some("external"),
        _ => None,
    }
}

// The text of an external id, lent.
fn text_of(external: &Option<Text>) -> Option<&str>
    ensures { option_copied result ≡ external.now }
{
    match external {
        Some(id) => Some(id.as_str()),
        None => None,
    }
}

// More members than a call may name, which no line does.
fn few_fault(members: &[Text]) -> Option<&'static str>
    ensures { option_map (λ name. Cause.Form name.now) result ≡ few_refusal members.now }
{
    if members.len() > MOST_MEMBERS {
        return Some("members");
    }
    None
}

// An issue that is to go beside itself, which no line asks for.
fn other_fault(issue: &str, other: &str) -> Option<&'static str>
    ensures { option_map (λ name. Cause.Form name.now) result
        ≡ other_refusal issue.now other.now }
{
    if other == issue {
        return Some("other");
    }
    None
}

// A number of picks that is out of range, which no line gives.
fn count_fault(count: u32) -> Option<&'static str>
    ensures { option_map (λ name. Cause.Form name.now) result ≡ count_refusal 1000 count }
{
    if count < 1 || MOST_LISTED < count {
        return Some("count");
    }
    None
}

// A name of a filter or a board that isn't of its form, which no line gives.
fn title_fault(name: &str) -> Option<&'static str>
    ensures { option_map (λ name. Cause.Form name.now) result ≡ title_refusal name.now }
{
    if is_title(name) {
        return None;
    }
    Some("name")
}

// The first member of the call that isn't of its form.
#[tactic(auto, unfolding(tracker_machine::specs::Step::form_refusal))]
fn fault_of_form(alloc: Global, call: &Call) -> Result<Option<&'static str>, Memory>
    ensures { IfOk result
        (λ fault. option_map (λ name. Cause.Form name.now) fault ≡ form_refusal call.now) }
{
    match call {
        Call::Create { set, external, .. } => create_fault(alloc, set.as_slice(), external),
        Call::Edit { set, .. } => twins_fault(alloc, set.as_slice()),
        Call::Transition { set, .. } => twins_fault(alloc, set.as_slice()),
        Call::History { part, .. } => Ok(part_fault(*part, MOST_ENTRIES)),
        Call::Search { part, .. } => Ok(part_fault(*part, MOST_LISTED)),
        Call::MoveBefore { issue, other } | Call::MoveAfter { issue, other } => {
            Ok(other_fault(issue.as_str(), other.as_str()))
        }
        Call::Ranks { part } => Ok(part_fault(*part, MOST_LISTED)),
        Call::RebalanceStep { count } => Ok(count_fault(*count)),
        Call::SaveFilter { name, .. } | Call::MakeBoard { name, .. } | Call::MakeSprint { name } =>
            Ok(title_fault(name.as_str())),
        Call::Filter { part, .. } | Call::Board { part, .. } | Call::Burndown { part, .. } => {
            Ok(part_fault(*part, MOST_LISTED))
        }
        Call::List { fields, part, .. } => Ok(list_fault(fields, *part)),
        Call::Filters { part } | Call::Boards { part } | Call::Sprints { part } => {
            Ok(part_fault(*part, MOST_LISTED))
        }
        Call::SetGroup { members, .. } => Ok(few_fault(members.as_slice())),
        Call::Tick { .. }
        | Call::Show { .. }
        | Call::RebalanceStart
        | Call::Balance
        | Call::Describe
        | Call::DropFilter { .. }
        | Call::DropBoard { .. }
        | Call::StartSprint { .. }
        | Call::CloseSprint { .. } => Ok(None),
    }
}
