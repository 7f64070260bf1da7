// The load that a number asks for: its calls are made one after another, and what they come to is told.
ghost use Rattle.std.specs.Prelude.{◌≡◌, ◌≤◌, ◌<◌, ◌+◌, length, IfOk, if◌then◌else◌};
ghost use Rattle.tracker_import.specs.Load.{EndsLoad, MakesEach, MakesInLoad, loader, members_of, outcome_of, summary_of};

use crate::load_calls::LoadCalls;
use field_values::{FilterNo, Memory, SprintNo};
use fields::Steps;
use list_calls::filter_issues::shown;
use std::alloc::Global;
use std::sync::ledger::Ledger;
use tracker_calls::{Call, Refusal, Reply, UserName};
use tracker_core::{Desk, State};
use tracker_keeper::Keeper;

/// What a load comes to.
#[derive(Clone, Copy)]
pub struct LoadSummary {
    /// How many calls were made.
    pub calls: u64,
    /// How many of them were refused.
    pub refused: u64,
    /// How many issues the first filter shows its owner.
    pub members: u64,
    /// What is left of the first sprint, in thousandths of points.
    pub left: i64,
    /// The bucket of all ranks.
    pub bucket: u8,
}

/// How a load ends.
#[derive(Clone, Copy)]
pub enum LoadEnd {
    /// All calls were made.
    Done(LoadSummary),

    /// The keeper failed at a call, and no further one was made.
    KeeperFault,

    /// There was not enough memory, and no further call was made.
    Memory,
}

/// Why no further call is made.
#[derive(Clone, Copy)]
pub enum LoadFault {
    Keeper,
    Memory,
}

/// The calls that were made, counted.
#[derive(Clone, Copy)]
pub struct CallCounts {
    pub calls: u64,
    pub refused: u64,
}

/// Makes the calls of the load of that many issues as anna, one after another, and tells what they come to. It ends at the first
/// call at which the keeper fails or memory lacks; no reply is written.
pub fn make_load<L: Ledger, P: Keeper + Drop>(
    alloc: Global,
    number: u32,
    desk: &mut Desk<P>,
    steps: &mut Steps<L>,
) -> LoadEnd
    requires { number ≤ 20_000 }
    ensures { EndsLoad P.keeps P.tells P.faults number desk.old result desk.new }
{
    let Ok(caller) = UserName::copy_of(alloc, "anna") else {
        return LoadEnd::Memory;
    };
    let mut calls = LoadCalls::new(alloc, number);
    match make_each(&mut calls, &caller, desk, steps) {
        Ok(counts) => match summary_of(alloc, counts, desk.state()) {
            Ok(summary) => LoadEnd::Done(summary),
            Err(Memory) => LoadEnd::Memory,
        },
        Err(LoadFault::Keeper) => LoadEnd::KeeperFault,
        Err(LoadFault::Memory) => LoadEnd::Memory,
    }
}

// Makes the calls that are left.
fn make_each<L: Ledger, P: Keeper + Drop>(
    calls: &mut LoadCalls,
    caller: &UserName,
    desk: &mut Desk<P>,
    steps: &mut Steps<L>,
) -> Result<CallCounts, LoadFault>
    requires caller { caller.now ≡ loader }
    requires few { length calls.old ≤ 1_000_000 }
    ensures { MakesEach P.keeps P.tells P.faults desk.old calls.old result desk.new }
{
    let mut counts = CallCounts {
        calls: 0,
        refused: 0,
    };
    'each: loop {
        match calls.next_call() {
            Ok(Some(call)) => match make(caller, &call, desk, steps) {
                Ok(refused) => {
                    counts = counted(counts, refused);
                }
                Err(fault) => return Err(fault),
            },
            Ok(None) => return Ok(counts),
            Err(Memory) => return Err(LoadFault::Memory),
        }
    }
}

// With one call more.
fn counted(counts: CallCounts, refused: bool) -> CallCounts
    requires few { counts.calls < 1_000_000 }
    requires fewer { counts.refused ≤ counts.calls }
    ensures calls { result.calls ≡ counts.calls + 1 }
    ensures refused { result.refused ≡ counts.refused + (if refused then 1 else 0) }
    ensures fewer { result.refused ≤ result.calls }
{
    let calls = counts.calls + 1;
    if refused {
        CallCounts {
            calls,
            refused: counts.refused + 1,
        }
    } else {
        CallCounts {
            calls,
            refused: counts.refused,
        }
    }
}

// Makes a call, and says whether it was refused.
fn make<L: Ledger, P: Keeper + Drop>(
    caller: &UserName,
    call: &Call,
    desk: &mut Desk<P>,
    steps: &mut Steps<L>,
) -> Result<bool, LoadFault>
    requires { caller.now ≡ loader }
    ensures { MakesInLoad P.keeps P.tells P.faults desk.old call.now result desk.new }
{
    let reply = desk.call(caller, call, steps);
    outcome_of(&reply)
}

fn outcome_of(reply: &Reply) -> Result<bool, LoadFault>
    ensures { result ≡ outcome_of reply.now }
{
    match reply {
        Reply::Ok(_) => Ok(false),
        Reply::Refused(Refusal::Keeper) => Err(LoadFault::Keeper),
        Reply::Refused(Refusal::Memory) => Err(LoadFault::Memory),
        Reply::Refused(Refusal::Cause(_)) => Ok(true),
    }
}

// What the state tells, and what was counted.
fn summary_of(alloc: Global, counts: CallCounts, state: &State) -> Result<LoadSummary, Memory>
    ensures { IfOk result (λ s. s ≡ summary_of counts.calls counts.refused state.now.machine) }
{
    let members = members_of(alloc, state, FilterNo(1))?;
    Ok(LoadSummary {
        calls: counts.calls,
        refused: counts.refused,
        members,
        left: state.work().remaining(SprintNo(1)),
        bucket: state.ranks().balance().empty_bucket(),
    })
}

// How many issues the filter of that number shows its owner; 0 where there is none.
fn members_of(alloc: Global, state: &State, no: FilterNo) -> Result<u64, Memory>
    ensures { IfOk result (λ n. n ≡ members_of state.now.machine no) }
{
    state.have_seen();
    match state.filters().get(no) {
        Some(filter) => {
            let issues = shown(alloc, state, filter.owner, filter)?;
            Ok(issues.len() as u64)
        }
        None => Ok(0),
    }
}
