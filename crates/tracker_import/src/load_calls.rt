// The calls of a load, one after the other.
ghost use Rattle.std.specs.Prelude.{◌≡◌, ◌≤◌, ◌+◌, ◌/◌, ◌++◌, map, IfOk, IfNone, [], ◌%◌, ◌*◌};
ghost use Rattle.std.specs.List.{flat_map};
ghost use Rattle.tracker_import.specs.Load.{created, into_sprint, is_finished, load_calls, move_up, multiples, numbers, step, steps_for, worked_on};
ghost use Rattle.tracker_import.specs.Stages.{HandsOut, IsWithin, behind_creates, behind_edits, behind_moves, behind_steps, behind_work, calls_left, next_call, with_first};

use crate::one_call::{
    create, finish, into_sprint, make_sprint, move_up, save_filter, start, step, tick,
};
use field_values::{Memory, SprintNo};
use std::alloc::Global;
use std::marker::Model;
use tracker_calls::Call;

/// Which call of a load is next.
#[derive(Clone, Copy)]
pub enum Stage {
    /// Before the issue of that number.
    Tick(u32),
    /// Of the issue of that number.
    Create(u32),
    MakeSprint,
    /// Of the issue of three times that number.
    IntoSprint(u32),
    StartSprint,
    SaveFilter,
    /// Before the start of the issue of twice that number.
    LaterTick(u32),
    /// Of the issue of twice that number.
    Start(u32),
    /// Of the issue of twice that number.
    Finish(u32),
    /// Of the issue of five times that number.
    Move(u32),
    RebalanceStart,
    /// The step of that number.
    RebalanceStep(u32),
    LastTick,
    /// None is left.
    Over,
}

/// Hands out the calls of a load, one after the other. Contracts see it as the calls that are left.
#[derive(Drop)]
pub struct LoadCalls {
    alloc: Global,
    // How many issues the load has.
    number: u32,
    stage: Stage,
}

impl Model for LoadCalls {
    ghost use Rattle.std.specs.Prelude.{◌≤◌, List};
    ghost use Rattle.tracker_calls.specs.declared.call.Call.{Call};
    ghost use Rattle.tracker_import.specs.Stages.{IsWithin, calls_left};

    ghost Value = { List Call };

    ghost view = { λ l. calls_left l.number l.stage };

    ghost invariant = { λ l. (l.number ≤ 20_000) × IsWithin l.number l.stage };
}

impl LoadCalls {
    /// All calls of the load of that number are left.
    pub fn new(alloc: Global, number: u32) -> Self
        requires { number ≤ 20_000 }
        ensures { result ≡ load_calls number }
    {
        let stage = creates_from(number, 1);
        LoadCalls {
            alloc,
            number,
            stage,
        }
    }

    /// Hands out the next call; `None` exactly where none is left. Where memory lacks, the call is left.
    pub fn next_call(&mut self) -> Result<Option<Call>, Memory>
        ensures { IfOk result (λ c. HandsOut self.old c self.new) }
    {
        match call_at(self.alloc, self.number, self.stage)? {
            Some(call) => {
                self.stage = stage_after(self.number, self.stage);
                Ok(Some(call))
            }
            None => Ok(None),
        }
    }
}

// The call of a stage.
fn call_at(alloc: Global, number: u32, stage: Stage) -> Result<Option<Call>, Memory>
    requires few { number ≤ 20_000 }
    requires within { IsWithin number stage }
    ensures call { IfOk result (λ c. c ≡ next_call number stage) }
    ensures none { IfOk result (λ c. IfNone c (calls_left number stage ≡ [])) }
{
    match stage {
        Stage::Tick(i) => Ok(Some(tick(i))),
        Stage::Create(i) => Ok(Some(create(alloc, i)?)),
        Stage::MakeSprint => Ok(Some(make_sprint(alloc)?)),
        Stage::IntoSprint(k) => Ok(Some(into_sprint(alloc, 3 * k)?)),
        Stage::StartSprint => Ok(Some(Call::StartSprint {
            sprint: SprintNo(1),
        })),
        Stage::SaveFilter => Ok(Some(save_filter(alloc)?)),
        Stage::LaterTick(k) => Ok(Some(tick(number + 2 * k))),
        Stage::Start(k) => Ok(Some(start(alloc, 2 * k)?)),
        Stage::Finish(k) => Ok(Some(finish(alloc, 2 * k)?)),
        Stage::Move(k) => Ok(Some(move_up(alloc, 5 * k)?)),
        Stage::RebalanceStart => Ok(Some(Call::RebalanceStart)),
        Stage::RebalanceStep(_) => Ok(Some(step())),
        Stage::LastTick => Ok(Some(tick(number + number / 2 + 86_400))),
        Stage::Over => Ok(None),
    }
}

// The stage behind a call.
fn stage_after(number: u32, stage: Stage) -> Stage
    requires few { number ≤ 20_000 }
    requires within { IsWithin number stage }
    ensures left { calls_left number stage
        ≡ with_first (next_call number stage) (calls_left number result) }
    ensures within { IsWithin number result }
{
    match stage {
        Stage::Tick(i) => Stage::Create(i),
        Stage::Create(i) => creates_from(number, i + 1),
        Stage::MakeSprint => edits_from(number, 1),
        Stage::IntoSprint(k) => edits_from(number, k + 1),
        Stage::StartSprint => Stage::SaveFilter,
        Stage::SaveFilter => work_from(number, 1),
        Stage::LaterTick(k) => Stage::Start(k),
        Stage::Start(k) => after_start(number, k),
        Stage::Finish(k) => work_from(number, k + 1),
        Stage::Move(k) => moves_from(number, k + 1),
        Stage::RebalanceStart => steps_from(number, 1),
        Stage::RebalanceStep(k) => steps_from(number, k + 1),
        Stage::LastTick => Stage::Over,
        Stage::Over => Stage::Over,
    }
}

// The stage at which the issues from that number on are still to come.
fn creates_from(number: u32, i: u32) -> Stage
    ensures left { calls_left number result
        ≡ flat_map created (numbers i number) ++ behind_creates number }
    ensures within { IsWithin number result }
{
    if i <= number {
        Stage::Tick(i)
    } else {
        Stage::MakeSprint
    }
}

// The stage at which the sprint still lacks the issues from that one of each third on.
fn edits_from(number: u32, k: u32) -> Stage
    ensures left { calls_left number result
        ≡ map into_sprint (multiples 3 k (number / 3)) ++ behind_edits number }
    ensures within { IsWithin number result }
{
    if k <= number / 3 {
        Stage::IntoSprint(k)
    } else {
        Stage::StartSprint
    }
}

// The stage at which the issues from that one of each second on are still to be worked on.
fn work_from(number: u32, k: u32) -> Stage
    requires { 1 ≤ k }
    ensures left { calls_left number result
        ≡ flat_map (worked_on number) (multiples 2 k (number / 2)) ++ behind_work number }
    ensures within { IsWithin number result }
{
    if k <= number / 2 {
        Stage::LaterTick(k)
    } else {
        moves_from(number, 1)
    }
}

// The stage behind a start.
fn after_start(number: u32, k: u32) -> Stage
    requires few { number ≤ 20_000 }
    requires within { k ≤ number / 2 }
    ensures left { calls_left number (Stage.Start k)
        ≡ with_first (next_call number (Stage.Start k)) (calls_left number result) }
    ensures within { IsWithin number result }
{
    if is_finished(2 * k) {
        Stage::Finish(k)
    } else {
        work_from(number, k + 1)
    }
}

fn is_finished(i: u32) -> bool
    ensures { result ≡ is_finished i }
{
    i % 4 == 0
}

// The stage at which the issues from that one of each fifth on are still to be moved.
fn moves_from(number: u32, k: u32) -> Stage
    requires { 1 ≤ k }
    ensures left { calls_left number result
        ≡ map move_up (multiples 5 k (number / 5)) ++ behind_moves number }
    ensures within { IsWithin number result }
{
    if k <= number / 5 {
        Stage::Move(k)
    } else {
        Stage::RebalanceStart
    }
}

// The stage at which the steps from that one on are still to come.
fn steps_from(number: u32, k: u32) -> Stage
    requires { number ≤ 20_000 }
    ensures left { calls_left number result
        ≡ map (λ _. step) (numbers k (steps_for number)) ++ behind_steps number }
    ensures within { IsWithin number result }
{
    if k <= (number + 999) / 1_000 {
        Stage::RebalanceStep(k)
    } else {
        Stage::LastTick
    }
}
