// Each call with its members, in the order in which a fault is told.
ghost use Rattle.std.specs.Prelude.{◌≡◌};
ghost use Rattle.call_lines.specs.Asked.{UnlessMemory};
ghost use Rattle.call_lines.specs.Taken.{asked_in, move_in, moved};

use crate::asked_groups::set_group_of;
use crate::asked_pages::{boards_of, describe_of, filters_of, list_of, sprints_of};
use crate::asked_sprints::{burndown_of, close_sprint_of, make_sprint_of, start_sprint_of};
use crate::given::{take_set, take_set_if_there};
use crate::kind::CallKind;
use crate::members::{
    count_at, count_if_there, first_other, from_if_there, misses, moment_at, number_at, other_than,
    text_at, title_at,
};
use crate::named::take_external;
use crate::taken::{take_text, take_told, take_user};
use field_values::{BoardNo, FilterNo};
use serde_json::{Map, Value};
use std::alloc::Global;
use tracker_calls::{Call, MOST_ENTRIES, MOST_LISTED, Part, Refusal, ToldText, UserName};

/// The call of that kind with its members, or the first fault of these. What the call has of them is taken out.
pub fn asked_in(
    alloc: Global,
    kind: CallKind,
    members: &mut Map<String, Value>,
) -> Result<(UserName, Call), Refusal>
    ensures { UnlessMemory result (asked_in kind members.old) }
{
    match kind {
        CallKind::Create => create_of(alloc, members),
        CallKind::Edit => edit_of(alloc, members),
        CallKind::Transition => transition_of(alloc, members),
        CallKind::Tick => tick_of(alloc, members),
        CallKind::MoveBefore => move_of(alloc, CallKind::MoveBefore, members),
        CallKind::MoveAfter => move_of(alloc, CallKind::MoveAfter, members),
        CallKind::RebalanceStart => rebalance_start_of(alloc, members),
        CallKind::RebalanceStep => rebalance_step_of(alloc, members),
        CallKind::SaveFilter => save_filter_of(alloc, members),
        CallKind::DropFilter => drop_filter_of(alloc, members),
        CallKind::MakeBoard => make_board_of(alloc, members),
        CallKind::DropBoard => drop_board_of(alloc, members),
        CallKind::MakeSprint => make_sprint_of(alloc, members),
        CallKind::StartSprint => start_sprint_of(alloc, members),
        CallKind::CloseSprint => close_sprint_of(alloc, members),
        CallKind::SetGroup => set_group_of(alloc, members),
        CallKind::Show => show_of(alloc, members),
        CallKind::History => history_of(alloc, members),
        CallKind::Search => search_of(alloc, members),
        CallKind::Ranks => ranks_of(alloc, members),
        CallKind::Balance => balance_of(alloc, members),
        CallKind::Filter => filter_of(alloc, members),
        CallKind::Board => board_of(alloc, members),
        CallKind::Burndown => burndown_of(alloc, members),
        CallKind::List => list_of(alloc, members),
        CallKind::Filters => filters_of(alloc, members),
        CallKind::Boards => boards_of(alloc, members),
        CallKind::Sprints => sprints_of(alloc, members),
        CallKind::Describe => describe_of(alloc, members),
    }
}

#[tactic(auto, using(crate::proofs::Taking::text_at_without, crate::proofs::Taking::external_without, crate::proofs::Taking::first_other_without))]
fn create_of(alloc: Global, members: &mut Map<String, Value>) -> Result<(UserName, Call), Refusal>
    ensures { UnlessMemory result (asked_in CallKind.Create members.old) }
{
    let Some(_) = text_at(members, "project") else {
        return misses(alloc, "project");
    };
    let Some(_) = text_at(members, "type") else {
        return misses(alloc, "type");
    };
    let Some(_) = text_at(members, "summary") else {
        return misses(alloc, "summary");
    };
    let Some(set) = take_set_if_there(alloc, members)? else {
        return misses(alloc, "set");
    };
    let Some(external) = take_external(members) else {
        return misses(alloc, "external");
    };
    if let Some(other) = first_other(CallKind::Create, members) {
        return misses(alloc, other);
    }
    let project = take_told(alloc, members, "project");
    let issue_type = take_told(alloc, members, "type");
    let summary = take_text(alloc, members, "summary");
    let user = take_user(alloc, members);
    Ok((
        user,
        Call::Create {
            project,
            issue_type,
            summary,
            set,
            external,
        },
    ))
}

#[tactic(auto, using(crate::proofs::Taking::text_at_without, crate::proofs::Taking::first_other_without))]
fn edit_of(alloc: Global, members: &mut Map<String, Value>) -> Result<(UserName, Call), Refusal>
    ensures { UnlessMemory result (asked_in CallKind.Edit members.old) }
{
    let Some(_) = text_at(members, "issue") else {
        return misses(alloc, "issue");
    };
    let Some(set) = take_set(alloc, members)? else {
        return misses(alloc, "set");
    };
    if let Some(other) = first_other(CallKind::Edit, members) {
        return misses(alloc, other);
    }
    let issue = take_told(alloc, members, "issue");
    let user = take_user(alloc, members);
    Ok((user, Call::Edit { issue, set }))
}

#[tactic(auto, using(crate::proofs::Taking::text_at_without, crate::proofs::Taking::first_other_without))]
fn transition_of(
    alloc: Global,
    members: &mut Map<String, Value>,
) -> Result<(UserName, Call), Refusal>
    ensures { UnlessMemory result (asked_in CallKind.Transition members.old) }
{
    let Some(_) = text_at(members, "issue") else {
        return misses(alloc, "issue");
    };
    let Some(_) = text_at(members, "transition") else {
        return misses(alloc, "transition");
    };
    let Some(set) = take_set_if_there(alloc, members)? else {
        return misses(alloc, "set");
    };
    if let Some(other) = first_other(CallKind::Transition, members) {
        return misses(alloc, other);
    }
    let issue = take_told(alloc, members, "issue");
    let transition = take_told(alloc, members, "transition");
    let user = take_user(alloc, members);
    Ok((
        user,
        Call::Transition {
            issue,
            transition,
            set,
        },
    ))
}

fn tick_of(alloc: Global, members: &mut Map<String, Value>) -> Result<(UserName, Call), Refusal>
    ensures { UnlessMemory result (asked_in CallKind.Tick members.old) }
{
    let Some(to) = moment_at(members, "to") else {
        return misses(alloc, "to");
    };
    if let Some(other) = first_other(CallKind::Tick, members) {
        return misses(alloc, other);
    }
    let user = take_user(alloc, members);
    Ok((user, Call::Tick { to }))
}

// Either move, by its kind.
#[tactic(auto, using(crate::proofs::Taking::text_at_without))]
fn move_of(
    alloc: Global,
    kind: CallKind,
    members: &mut Map<String, Value>,
) -> Result<(UserName, Call), Refusal>
    ensures { UnlessMemory result (move_in kind members.old) }
{
    let Some(issue) = text_at(members, "issue") else {
        return misses(alloc, "issue");
    };
    let Some(_) = other_than(members, issue) else {
        return misses(alloc, "other");
    };
    if let Some(other) = first_other(kind, members) {
        return misses(alloc, other);
    }
    let issue = take_told(alloc, members, "issue");
    let other = take_told(alloc, members, "other");
    let user = take_user(alloc, members);
    Ok((user, moved(kind, issue, other)))
}

fn moved(kind: CallKind, issue: ToldText, other: ToldText) -> Call
    ensures { result ≡ moved kind issue other }
{
    match kind {
        CallKind::MoveAfter => Call::MoveAfter { issue, other },
        _ => Call::MoveBefore { issue, other },
    }
}

fn rebalance_start_of(
    alloc: Global,
    members: &mut Map<String, Value>,
) -> Result<(UserName, Call), Refusal>
    ensures { UnlessMemory result (asked_in CallKind.RebalanceStart members.old) }
{
    if let Some(other) = first_other(CallKind::RebalanceStart, members) {
        return misses(alloc, other);
    }
    let user = take_user(alloc, members);
    Ok((user, Call::RebalanceStart))
}

fn rebalance_step_of(
    alloc: Global,
    members: &mut Map<String, Value>,
) -> Result<(UserName, Call), Refusal>
    ensures { UnlessMemory result (asked_in CallKind.RebalanceStep members.old) }
{
    let Some(count) = count_at(members, MOST_LISTED) else {
        return misses(alloc, "count");
    };
    if let Some(other) = first_other(CallKind::RebalanceStep, members) {
        return misses(alloc, other);
    }
    let user = take_user(alloc, members);
    Ok((user, Call::RebalanceStep { count }))
}

#[tactic(auto, using(crate::proofs::Taking::text_at_without))]
fn save_filter_of(
    alloc: Global,
    members: &mut Map<String, Value>,
) -> Result<(UserName, Call), Refusal>
    ensures { UnlessMemory result (asked_in CallKind.SaveFilter members.old) }
{
    let Some(_) = title_at(members, "name") else {
        return misses(alloc, "name");
    };
    let Some(_) = text_at(members, "jql") else {
        return misses(alloc, "jql");
    };
    if let Some(other) = first_other(CallKind::SaveFilter, members) {
        return misses(alloc, other);
    }
    let name = take_text(alloc, members, "name");
    let jql = take_text(alloc, members, "jql");
    let user = take_user(alloc, members);
    Ok((user, Call::SaveFilter { name, jql }))
}

fn drop_filter_of(
    alloc: Global,
    members: &mut Map<String, Value>,
) -> Result<(UserName, Call), Refusal>
    ensures { UnlessMemory result (asked_in CallKind.DropFilter members.old) }
{
    let Some(number) = number_at(members, "filter") else {
        return misses(alloc, "filter");
    };
    if let Some(other) = first_other(CallKind::DropFilter, members) {
        return misses(alloc, other);
    }
    let user = take_user(alloc, members);
    Ok((
        user,
        Call::DropFilter {
            filter: FilterNo(number),
        },
    ))
}

#[tactic(auto, using(crate::proofs::Taking::text_at_without))]
fn make_board_of(
    alloc: Global,
    members: &mut Map<String, Value>,
) -> Result<(UserName, Call), Refusal>
    ensures { UnlessMemory result (asked_in CallKind.MakeBoard members.old) }
{
    let Some(_) = title_at(members, "name") else {
        return misses(alloc, "name");
    };
    let Some(number) = number_at(members, "filter") else {
        return misses(alloc, "filter");
    };
    if let Some(other) = first_other(CallKind::MakeBoard, members) {
        return misses(alloc, other);
    }
    let name = take_text(alloc, members, "name");
    let user = take_user(alloc, members);
    Ok((
        user,
        Call::MakeBoard {
            name,
            filter: FilterNo(number),
        },
    ))
}

fn drop_board_of(
    alloc: Global,
    members: &mut Map<String, Value>,
) -> Result<(UserName, Call), Refusal>
    ensures { UnlessMemory result (asked_in CallKind.DropBoard members.old) }
{
    let Some(number) = number_at(members, "board") else {
        return misses(alloc, "board");
    };
    if let Some(other) = first_other(CallKind::DropBoard, members) {
        return misses(alloc, other);
    }
    let user = take_user(alloc, members);
    Ok((
        user,
        Call::DropBoard {
            board: BoardNo(number),
        },
    ))
}

#[tactic(auto, using(crate::proofs::Taking::text_at_without))]
fn show_of(alloc: Global, members: &mut Map<String, Value>) -> Result<(UserName, Call), Refusal>
    ensures { UnlessMemory result (asked_in CallKind.Show members.old) }
{
    let Some(_) = text_at(members, "issue") else {
        return misses(alloc, "issue");
    };
    if let Some(other) = first_other(CallKind::Show, members) {
        return misses(alloc, other);
    }
    let issue = take_told(alloc, members, "issue");
    let user = take_user(alloc, members);
    Ok((user, Call::Show { issue }))
}

#[tactic(auto, using(crate::proofs::Taking::text_at_without))]
fn history_of(alloc: Global, members: &mut Map<String, Value>) -> Result<(UserName, Call), Refusal>
    ensures { UnlessMemory result (asked_in CallKind.History members.old) }
{
    let Some(_) = text_at(members, "issue") else {
        return misses(alloc, "issue");
    };
    let Some(from) = from_if_there(members) else {
        return misses(alloc, "from");
    };
    let Some(count) = count_if_there(members, MOST_ENTRIES) else {
        return misses(alloc, "count");
    };
    if let Some(other) = first_other(CallKind::History, members) {
        return misses(alloc, other);
    }
    let issue = take_told(alloc, members, "issue");
    let user = take_user(alloc, members);
    Ok((
        user,
        Call::History {
            issue,
            part: Part { from, count },
        },
    ))
}

#[tactic(auto, using(crate::proofs::Taking::text_at_without))]
fn search_of(alloc: Global, members: &mut Map<String, Value>) -> Result<(UserName, Call), Refusal>
    ensures { UnlessMemory result (asked_in CallKind.Search members.old) }
{
    let Some(_) = text_at(members, "jql") else {
        return misses(alloc, "jql");
    };
    let Some(from) = from_if_there(members) else {
        return misses(alloc, "from");
    };
    let Some(count) = count_if_there(members, MOST_LISTED) else {
        return misses(alloc, "count");
    };
    if let Some(other) = first_other(CallKind::Search, members) {
        return misses(alloc, other);
    }
    let jql = take_text(alloc, members, "jql");
    let user = take_user(alloc, members);
    Ok((
        user,
        Call::Search {
            jql,
            part: Part { from, count },
        },
    ))
}

fn ranks_of(alloc: Global, members: &mut Map<String, Value>) -> Result<(UserName, Call), Refusal>
    ensures { UnlessMemory result (asked_in CallKind.Ranks members.old) }
{
    let Some(from) = from_if_there(members) else {
        return misses(alloc, "from");
    };
    let Some(count) = count_if_there(members, MOST_LISTED) else {
        return misses(alloc, "count");
    };
    if let Some(other) = first_other(CallKind::Ranks, members) {
        return misses(alloc, other);
    }
    let user = take_user(alloc, members);
    Ok((
        user,
        Call::Ranks {
            part: Part { from, count },
        },
    ))
}

fn balance_of(alloc: Global, members: &mut Map<String, Value>) -> Result<(UserName, Call), Refusal>
    ensures { UnlessMemory result (asked_in CallKind.Balance members.old) }
{
    if let Some(other) = first_other(CallKind::Balance, members) {
        return misses(alloc, other);
    }
    let user = take_user(alloc, members);
    Ok((user, Call::Balance))
}

fn filter_of(alloc: Global, members: &mut Map<String, Value>) -> Result<(UserName, Call), Refusal>
    ensures { UnlessMemory result (asked_in CallKind.Filter members.old) }
{
    let Some(number) = number_at(members, "filter") else {
        return misses(alloc, "filter");
    };
    let Some(from) = from_if_there(members) else {
        return misses(alloc, "from");
    };
    let Some(count) = count_if_there(members, MOST_LISTED) else {
        return misses(alloc, "count");
    };
    if let Some(other) = first_other(CallKind::Filter, members) {
        return misses(alloc, other);
    }
    let user = take_user(alloc, members);
    Ok((
        user,
        Call::Filter {
            filter: FilterNo(number),
            part: Part { from, count },
        },
    ))
}

fn board_of(alloc: Global, members: &mut Map<String, Value>) -> Result<(UserName, Call), Refusal>
    ensures { UnlessMemory result (asked_in CallKind.Board members.old) }
{
    let Some(number) = number_at(members, "board") else {
        return misses(alloc, "board");
    };
    let Some(from) = from_if_there(members) else {
        return misses(alloc, "from");
    };
    let Some(count) = count_if_there(members, MOST_LISTED) else {
        return misses(alloc, "count");
    };
    if let Some(other) = first_other(CallKind::Board, members) {
        return misses(alloc, other);
    }
    let user = take_user(alloc, members);
    Ok((
        user,
        Call::Board {
            board: BoardNo(number),
            part: Part { from, count },
        },
    ))
}
