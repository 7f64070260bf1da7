// The call `sprints`: all sprints, by number.
ghost use Rattle.std.specs.Prelude.{◌≡◌, ◌≤◌, ◌-◌, List, Some, IfOk, length, take, drop, slice_get};
ghost use Rattle.sprints.specs.Sprint.{IsThere};
ghost use Rattle.tracker_calls.specs.Part.{part_of};
ghost use Rattle.tracker_calls.specs.declared.listed.ToldSprint.{ToldSprint as Told};
ghost use Rattle.tracker_machine.specs.Overviews.{sprints_answer, sprints_meaning, sprints_from};
ghost use Rattle.tracker_state.specs.Plan.{IsPrepared};

use fields::{Memory, SprintNo};
use setting_calls::turn_sprint::phase_of;
use std::alloc::Global;
use tracker_calls::{Answer, Part, Refusal, ToldSprint, ToldSprints};
use tracker_state::{Prepared, State};

/// Tells a part of the sprints.
pub fn sprints(alloc: Global, state: &State, part: Part) -> Result<Prepared, Refusal>
    ensures { IsPrepared (sprints_meaning state.now.machine part) state.now result }
{
    let answer = answered(alloc, state, part)?;
    Ok(Prepared::Tell(answer))
}

fn answered(alloc: Global, state: &State, part: Part) -> Result<Answer, Memory>
    ensures { IfOk result (λ answer. answer ≡ sprints_answer state.now.machine part) }
{
    let count = state.work().count();
    let sprints = told_sprints(alloc, state, part.from, end_of(part, count))?;
    Ok(Answer::Sprints {
        sprints,
        total: u64::from(count),
    })
}

// Behind how many sprints the part ends, of which there are so many.
fn end_of(part: Part, count: u32) -> u32
    ensures within { result ≤ count }
    ensures part { (all : List Told) → length all ≡ count →
        take (result - part.from) (drop part.from all) ≡ part_of part all }
{
    let end = u64::from(part.from) + u64::from(part.count);
    if end < u64::from(count) {
        end as u32
    } else {
        count
    }
}

// The sprints behind so many, up to that one.
fn told_sprints(alloc: Global, state: &State, from: u32, end: u32) -> Result<ToldSprints, Memory>
    requires { end ≤ length state.now.machine.sprints }
    ensures { IfOk result (λ told. told
        ≡ take (end - from) (drop from (sprints_from 1 state.now.machine.sprints))) }
{
    let mut told = ToldSprints::new(alloc);
    for place in from..end {
        told.push(told_sprint(alloc, state, SprintNo(place + 1))?)?;
    }
    Ok(told)
}

fn told_sprint(alloc: Global, state: &State, sprint: SprintNo) -> Result<ToldSprint, Memory>
    requires { IsThere state.now.machine.sprints sprint.0 }
    ensures { IfOk result
        (λ told. slice_get (sprints_from 1 state.now.machine.sprints) (sprint.0 - 1)
        ≡ Some told) }
{
    let work = state.work();
    let Some(kept) = work.state(sprint) else {
        unreachable!()
    };
    let Some(name) = work.name(sprint) else {
        unreachable!()
    };
    let name = name.copy(alloc)?;
    Ok(ToldSprint {
        name,
        sprint,
        state: phase_of(&kept),
    })
}
