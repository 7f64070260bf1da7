// The call `drop_board`: a board goes.
ghost use Rattle.tracker_machine.specs.Boards.{drop_board_refusal, drop_board_meaning};
ghost use Rattle.tracker_state.specs.Check.{Checks};
ghost use Rattle.tracker_state.specs.Plan.{IsPrepared};

use crate::check::known_board;
use crate::rows::drop_board_ops;
use fields::{BoardNo, Permission, UserNo};
use std::alloc::Global;
use tracker_calls::{Answer, Refusal};
use tracker_state::{Plan, Prepared, State, check_permission};

/// Prepares that the board goes, or says why not.
pub fn drop_board(
    alloc: Global,
    state: &State,
    caller: UserNo,
    no: BoardNo,
) -> Result<Prepared, Refusal>
    ensures { IsPrepared (drop_board_meaning state.now.machine caller.0 no) state.now result }
{
    check_drop(alloc, state, caller, no)?;
    let rows = drop_board_ops(alloc, no)?;
    Ok(Prepared::Make {
        plan: Plan::DropBoard(no),
        answer: Answer::DropBoard { board: no },
        rows,
    })
}

// The board is there, and the caller may drop it.
fn check_drop(alloc: Global, state: &State, caller: UserNo, no: BoardNo) -> Result<(), Refusal>
    ensures { Checks (drop_board_refusal state.now.machine caller.0 no) result }
{
    let _ = known_board(alloc, state, no)?;
    check_permission(alloc, state, caller, Permission::Plan, None)
}
