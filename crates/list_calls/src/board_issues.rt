// The call `board`: a saved filter's issues in the order of ranks, status by status.
ghost use Rattle.std.specs.Prelude.{◌≡◌, IfOk, map};
ghost use Rattle.tracker_machine.specs.Boards.{board_issues, board_answer, board_meaning, column_of, columns_from, has_status};
ghost use Rattle.tracker_state.specs.Plan.{IsPrepared};

use crate::check::{filter_numbered, known_board};
use crate::filter_issues::shown;
use crate::in_order::put_by_rank;
use crate::listing::count_of;
use board::Board;
use change_history::{Issue, Small};
use fields::{BoardNo, FieldNo, Memory, Names, Status, Text, UserNo};
use std::alloc::Global;
use tracker_calls::{Answer, Column, Columns, Part, Refusal};
use tracker_state::{Prepared, State, part_of};

/// Tells a part of the issues of the board's filter which both the caller and the filter's owner may browse, in the order of
/// ranks, with a column for each status.
#[tactic(auto, unfolding(tracker_machine::specs::Boards::board_meaning))]
pub fn board(
    alloc: Global,
    state: &State,
    caller: UserNo,
    no: BoardNo,
    part: Part,
) -> Result<Prepared, Refusal>
    ensures { IsPrepared (board_meaning state.now.machine caller.0 no part) state.now result }
{
    let board = known_board(alloc, state, no)?;
    let answer = told(alloc, state, caller, board, part)?;
    Ok(Prepared::Tell(answer))
}

fn told(
    alloc: Global,
    state: &State,
    caller: UserNo,
    board: &Board,
    part: Part,
) -> Result<Answer, Memory>
    ensures { IfOk result (λ answer. answer
        ≡ board_answer state.now.machine caller.0 part board.now) }
{
    let mut issues = issues_of(alloc, state, caller, board)?;
    let total = count_of(&issues);
    put_by_rank(alloc, state, &mut issues)?;
    let columns = columns(
        alloc,
        state.setup().status.as_slice(),
        part_of(&issues, part),
    )?;
    Ok(Answer::Board { columns, total })
}

// What the caller finds by the board's filter, which is always there.
fn issues_of<'s>(
    alloc: Global,
    state: &'s State,
    caller: UserNo,
    board: &Board,
) -> Result<Vec<&'s Issue>, Memory>
    ensures { IfOk result (λ issues. map (λ i. i.now.history) issues.items
        ≡ board_issues state.now.machine caller.0 board.now) }
{
    match filter_numbered(state, board.filter) {
        Some(filter) => shown(alloc, state, caller, filter),
        None => Ok(Vec::new(alloc)),
    }
}

// A column for each status, in the setup's order.
fn columns(alloc: Global, statuses: &[Status], issues: &[&Issue]) -> Result<Columns, Memory>
    ensures { IfOk result (λ columns. columns
        ≡ columns_from 0 statuses.now (map (λ i. i.now.history) issues.now)) }
{
    let mut columns = Columns::new(alloc);
    for (place, status) in statuses.iter().enumerate() {
        columns.push(column(alloc, place, status, issues)?)?;
    }
    Ok(columns)
}

// The keys of the issues of the status at a place, under its name.
fn column(alloc: Global, place: usize, status: &Status, issues: &[&Issue]) -> Result<Column, Memory>
    ensures { IfOk result (λ column. column
        ≡ column_of (map (λ i. i.now.history) issues.now) place status.now) }
{
    let mut keys = Names::new(alloc);
    for issue in issues {
        if has_status(issue, place) {
            keys.push(Text::copy_of(alloc, issue.key().as_str())?)?;
        }
    }
    Ok(Column {
        issues: keys,
        status: status.name.copy(alloc)?,
    })
}

// Whether the issue has the status at a place.
fn has_status(issue: &Issue, place: usize) -> bool
    ensures { result ≡ has_status place issue.now.history }
{
    match issue.small(FieldNo::STATUS) {
        Small::Choice(choice) => usize::from(choice.0) == place,
        _ => false,
    }
}
