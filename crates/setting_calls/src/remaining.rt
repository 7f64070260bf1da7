// The call `burndown`: what a sprint has left, and how it came to that.
ghost use Rattle.std.specs.Prelude.{◌≡◌, IfOk, Some, map};
ghost use Rattle.sprints.specs.Sprint.{state_of};
ghost use Rattle.tracker_machine.specs.Sprints.{told_row, burndown_answer, burndown_meaning};
ghost use Rattle.tracker_state.specs.Plan.{IsPrepared};

use crate::turn_sprint::{phase_of, sprint_to_plan};
use burndown::BurnRow;
use fields::{Memory, SprintNo, UserNo};
use sprints::SprintState;
use std::alloc::Global;
use tracker_calls::{Answer, BurnedRow, BurnedRows, Part, Refusal, ToldText};
use tracker_state::{Prepared, State, key_numbered, part_of};

/// Tells what the sprint has left and had at its start, and a part of the changes of it between start and close.
pub fn burndown(
    alloc: Global,
    state: &State,
    caller: UserNo,
    sprint: SprintNo,
    part: Part,
) -> Result<Prepared, Refusal>
    ensures { IsPrepared (burndown_meaning state.now.machine caller.0 sprint part)
        state.now result }
{
    let kept = sprint_to_plan(alloc, state, caller, sprint)?;
    let answer = told(alloc, state, sprint, kept.state, part)?;
    Ok(Prepared::Tell(answer))
}

#[tactic(auto, unfolding(tracker_machine::specs::Sprints::burndown_answer))]
fn told(
    alloc: Global,
    state: &State,
    sprint: SprintNo,
    kept: SprintState,
    part: Part,
) -> Result<Answer, Memory>
    requires { state_of state.now.machine.sprints sprint.0 ≡ Some kept }
    ensures { IfOk result (λ answer. answer ≡ burndown_answer state.now.machine sprint part) }
{
    let work = state.work();
    let rows = work.rows(sprint);
    Ok(Answer::Burndown {
        left: work.remaining(sprint),
        rows: told_rows(alloc, state, part_of(rows, part))?,
        start: work.at_start(sprint),
        state: phase_of(&kept),
        total: rows.len() as u64,
    })
}

// The rows, each under the key of its issue.
fn told_rows(alloc: Global, state: &State, rows: &[BurnRow]) -> Result<BurnedRows, Memory>
    ensures { IfOk result (λ told. told ≡ map (told_row state.now.machine.histories) rows.now) }
{
    let mut told = BurnedRows::new(alloc);
    for row in rows {
        told.push(told_row(alloc, state, row)?)?;
    }
    Ok(told)
}

fn told_row(alloc: Global, state: &State, row: &BurnRow) -> Result<BurnedRow, Memory>
    ensures { IfOk result (λ told. told ≡ told_row state.now.machine.histories row.now) }
{
    Ok(BurnedRow {
        at: row.at,
        by: row.by,
        change: row.change,
        issue: ToldText::copy_of(alloc, key_numbered(state, row.issue))?,
        left: row.left,
    })
}
