// The operation that keeps a sprint.
ghost use Rattle.std.specs.Prelude.{◌≡◌, ◌∷◌, [], IfOk};
ghost use Rattle.setting_calls.specs.Rows.{sprint_op};

use fields::{Memory, SprintNo};
use sprints::SprintState;
use std::alloc::Global;
use tracker_keeper::{Row, RowOp, sprint_text};

/// The operation that keeps a sprint of this name and state.
pub fn sprint_ops(
    alloc: Global,
    no: SprintNo,
    name: &str,
    state: &SprintState,
) -> Result<Vec<RowOp>, Memory>
    ensures { IfOk result (λ ops. ops.items
        ≡ sprint_op no (record { name = name.now; state = state.now }) ∷ []) }
{
    let body = sprint_text(alloc, name, state)?;
    let mut ops = Vec::with_capacity(alloc, 1)?;
    ops.push(RowOp::Put(Row {
        kind: 7,
        no: u64::from(no.0),
        body,
    }))?;
    Ok(ops)
}
