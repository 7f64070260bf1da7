// The operations that keep filters and boards.
ghost use Rattle.std.specs.Prelude.{◌≡◌, ◌∷◌, [], IfOk};
ghost use Rattle.fields.specs.SetupParts.{parts, names_in};
ghost use Rattle.tracker_machine.specs.Kept.{board_drops};
ghost use Rattle.list_calls.specs.Rows.{filter_op, board_op};
ghost use Rattle.tracker_state.specs.State.{saved_as};

use board::Board;
use fields::{BoardNo, FilterNo, Memory, Setup, name_at};
use std::alloc::Global;
use tracker_filters::Filter;
use tracker_keeper::{Row, RowOp, board_text, filter_text};

/// The operation that keeps a filter.
#[tactic(auto, unfolding(tracker_keeper::specs::Bodies::body_text))]
pub fn filter_ops(alloc: Global, setup: &Setup, filter: &Filter) -> Result<Vec<RowOp>, Memory>
    ensures { IfOk result (λ ops. ops.items
        ≡ filter_op (names_in (parts setup.now)) (saved_as filter.now) ∷ []) }
{
    let owner = name_at(alloc, setup.users.as_slice(), filter.owner.0)?;
    let body = filter_text(
        alloc,
        filter.text.as_str(),
        filter.name.as_str(),
        owner.as_str(),
    )?;
    let mut ops = Vec::new(alloc);
    ops.push(RowOp::Put(Row {
        kind: 8,
        no: u64::from(filter.no.0),
        body,
    }))?;
    Ok(ops)
}

/// The operation that keeps a board.
pub fn board_ops(alloc: Global, board: &Board) -> Result<Vec<RowOp>, Memory>
    ensures { IfOk result (λ ops. ops.items ≡ board_op board.now ∷ []) }
{
    let body = board_text(alloc, board.filter, board.name.as_str())?;
    let mut ops = Vec::new(alloc);
    ops.push(RowOp::Put(Row {
        kind: 9,
        no: u64::from(board.no.0),
        body,
    }))?;
    Ok(ops)
}

/// The operation that ends the row of a board.
pub fn drop_board_ops(alloc: Global, no: BoardNo) -> Result<Vec<RowOp>, Memory>
    ensures { IfOk result (λ ops. ops.items ≡ RowOp.Drop 9 no.0 ∷ []) }
{
    let mut ops = Vec::new(alloc);
    ops.push(RowOp::Drop {
        kind: 9,
        no: u64::from(no.0),
    })?;
    Ok(ops)
}

/// The operations that end the rows of a filter and of its boards.
pub fn drop_filter_ops(alloc: Global, no: FilterNo, boards: &[Board]) -> Result<Vec<RowOp>, Memory>
    ensures { IfOk result (λ ops. ops.items ≡ RowOp.Drop 8 no.0 ∷ board_drops no boards.now) }
{
    let mut ops = Vec::new(alloc);
    ops.push(RowOp::Drop {
        kind: 8,
        no: u64::from(no.0),
    })?;
    for board in boards {
        if board.filter.0 == no.0 {
            ops.push(RowOp::Drop {
                kind: 9,
                no: u64::from(board.no.0),
            })?;
        }
    }
    Ok(ops)
}
