// The call `boards`: all boards, by number.
ghost use Rattle.std.specs.Prelude.{◌≡◌, IfOk, map};
ghost use Rattle.tracker_machine.specs.Overviews.{boards_answer, boards_meaning, told_board};
ghost use Rattle.tracker_state.specs.Plan.{IsPrepared};

use board::Board;
use fields::Memory;
use std::alloc::Global;
use tracker_calls::{Answer, Part, Refusal, ToldBoard, ToldBoards};
use tracker_state::{Prepared, State, part_of};

/// Tells a part of the boards.
pub fn boards(alloc: Global, state: &State, part: Part) -> Result<Prepared, Refusal>
    ensures { IsPrepared (boards_meaning state.now.machine part) state.now result }
{
    let answer = answered(alloc, state, part)?;
    Ok(Prepared::Tell(answer))
}

fn answered(alloc: Global, state: &State, part: Part) -> Result<Answer, Memory>
    ensures { IfOk result (λ answer. answer ≡ boards_answer state.now.machine part) }
{
    let all = state.boards().as_slice();
    let boards = told_boards(alloc, part_of(all, part))?;
    Ok(Answer::Boards {
        boards,
        total: all.len() as u64,
    })
}

fn told_boards(alloc: Global, boards: &[Board]) -> Result<ToldBoards, Memory>
    ensures { IfOk result (λ told. told ≡ map told_board boards.now) }
{
    let mut told = ToldBoards::new(alloc);
    for board in boards {
        told.push(told_board(alloc, board)?)?;
    }
    Ok(told)
}

fn told_board(alloc: Global, board: &Board) -> Result<ToldBoard, Memory>
    ensures { IfOk result (λ told. told ≡ told_board board.now) }
{
    let name = board.name.copy(alloc)?;
    Ok(ToldBoard {
        board: board.no,
        filter: board.filter,
        name,
    })
}
