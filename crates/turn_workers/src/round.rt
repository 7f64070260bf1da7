ghost use Rattle.std.specs.Prelude.{◌≡◌, ◌<◌, ◌≤◌, ◌+◌, ◌*◌, ◌^◌, [], ◌∷◌, All, map, IfOk, IfErr};
ghost use Rattle.desk_turn.specs.History.{IsAccountedFor};
ghost use Rattle.desk_turn.specs.Passes.{seen, listed};
ghost use Rattle.turn_workers.specs.Round.{signed, numbers_from};

use crate::bell::Bell;
use crate::ended::Ended;
use crate::gate::Gate;
use crate::job::Job;
use crate::passes::{join_all, split_all};
use crate::workers::run_watched;
use desk_turn::{Kept, Memory, Pass, Receipt, Turn};
use std::alloc::Global;
use std::snapshot::Snapshot;
use std::sync::Wait;
use std::thread::Threads;

/// What a round leaves: the value, the receipt of the looks, which were caller 1's, and each worker
/// that has ended. What the turn's first pass had seen at the end is there for contracts alone.
#[derive(Drop)]
pub struct Round<V: Kept> {
    pub value: V,
    pub looks: Receipt<V>,
    pub ended: Vec<Ended<V>>,
    pub first: Snapshot<Pass<V>>,
}

/// How many workers a round has, how many calls each of them may make, and how often may be looked beside them.
#[derive(Clone, Copy)]
pub struct Span {
    pub workers: usize,
    pub calls: u32,
    pub looks: u32,
}

/// Opens a turn over the value, and lets so many workers do the job, each with a pass of so many
/// calls. Whenever they have told something, one more caller looks, `looks` times at most. The
/// value comes back when all of them have ended; without memory for the round, as it was.
pub fn run_workers<
    V: Kept + Send,
    J: Job<V, R, G> + Sync,
    R: Threads + Wait + Sync,
    G: Gate + Sync,
>(
    rt: &R,
    alloc: Global,
    value: V,
    job: &J,
    gate: &G,
    look: &V::Ask,
    span: Span,
) -> Result<Round<V>, (Memory, V)>
where
    V::Ask: Sync,
    V::Told: Drop + Send,
    requires empty { V.history value ≡ [] }
    requires workers { span.workers ≤ 16 }
    requires calls { (1 ≤ span.calls) × (span.calls ≤ 2 ^ 20) }
    requires looks { (1 ≤ span.looks) × (span.looks ≤ 2 ^ 20) }
    ensures origin { IfOk result (λ r. V.origin r.value ≡ V.origin value) }
    ensures history { IfOk result (λ r. IsAccountedFor (V.history r.value) (seen r.first.value) []
        ((1, listed r.looks) ∷ map signed r.ended.items)) }
    ensures numbers { IfOk result (λ r. map (λ e. e.caller) r.ended.items ≡ numbers_from 2 span.workers) }
    ensures looks { IfOk result (λ r. All (λ e. e.ask ≡ look.now) (listed r.looks)) }
    ensures makes { IfOk result (λ r. All (λ s. J.makes job.now s.0 s.1) (map signed r.ended.items)) }
    ensures memory { IfErr result (λ e. e.1 ≡ value) }
{
    let Span {
        workers,
        calls,
        looks,
    } = span;
    let Ok(seats) = Vec::with_capacity(alloc, workers) else {
        return Err((Memory, value));
    };
    let Ok(ended) = Vec::with_capacity(alloc, workers) else {
        return Err((Memory, value));
    };
    let (turn, mut first) = Turn::open(alloc, value, looks + workers as u32 * calls)?;
    let Ok(eye) = turn.split(&mut first, looks) else {
        unreachable!()
    };
    let bell = Bell::new(workers);
    let seats = split_all(rt, &turn, &bell, gate, &mut first, seats, workers, calls);
    let (eye, seats) = run_watched(rt, &turn, &bell, gate, job, look, eye, seats);
    let looks = turn.join(&mut first, eye);
    let ended = join_all(&turn, &mut first, seats, ended);
    let last = Snapshot::of(&first);
    Ok(Round {
        value: turn.close(first),
        looks,
        ended,
        first: last,
    })
}
