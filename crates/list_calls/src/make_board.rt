// The call `make_board`: a board of a saved filter.
ghost use Rattle.std.specs.Prelude.{◌≡◌, true};
ghost use Rattle.field_forms.specs.Names.{is_title};
ghost use Rattle.tracker_machine.specs.Boards.{boards_refusal, make_board_refusal, make_board_meaning};
ghost use Rattle.tracker_state.specs.Check.{Checks};
ghost use Rattle.tracker_state.specs.Plan.{IsPrepared};

use crate::check::known_filter;
use crate::rows::board_ops;
use board::Board;
use fields::{FilterNo, Permission, Text, UserNo};
use std::alloc::Global;
use tracker_calls::{Answer, Cause, Limit, Refusal};
use tracker_limits::MOST_BOARDS;
use tracker_state::{Plan, Prepared, State, check_permission};

/// Prepares a new board of the filter, or says why not.
pub fn make_board(
    alloc: Global,
    state: &mut State,
    caller: UserNo,
    name: &str,
    filter: FilterNo,
) -> Result<Prepared, Refusal>
    requires title { is_title name.now ≡ true }
    ensures same { state.new.machine ≡ state.old.machine }
    ensures watched { state.new.watched ≡ state.old.watched }
    ensures prepared { IsPrepared (make_board_meaning state.old.machine caller.0 name.now filter)
        state.new result }
{
    state.is_tracker();
    check_make(alloc, state, caller, filter)?;
    let name = Text::copy_of(alloc, name)?;
    let board = Board {
        no: state.boards().free_number(),
        name,
        filter,
    };
    let rows = board_ops(alloc, &board)?;
    state.reserve_board()?;
    Ok(Prepared::Make {
        answer: Answer::MakeBoard { board: board.no },
        plan: Plan::Board(board),
        rows,
    })
}

// The filter is there, and the caller may make boards, for which there is room.
fn check_make(alloc: Global, state: &State, caller: UserNo, filter: FilterNo) -> Result<(), Refusal>
    ensures { Checks (make_board_refusal state.now.machine caller.0 filter) result }
{
    let _ = known_filter(alloc, state, filter)?;
    check_permission(alloc, state, caller, Permission::Plan, None)?;
    check_boards(state)
}

// There are fewer boards than there may be.
fn check_boards(state: &State) -> Result<(), Refusal>
    ensures { Checks (boards_refusal state.now.machine) result }
{
    if state.boards().len() < MOST_BOARDS {
        return Ok(());
    }
    Err(Refusal::Cause(Cause::Limit {
        limit: Limit::Boards,
    }))
}
