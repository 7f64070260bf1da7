ghost use Rattle.std.specs.Prelude.{◌≡◌, ◌<◌, ℕ, [], All, slice_index_or, vec_len};
ghost use Rattle.std.specs.Thread.{IsSync, IsSend};
ghost use Rattle.desk_turn.specs.Passes.{IsPassOf, caller_of, own};

use crate::bell::Bell;
use crate::gate::Gate;
use crate::job::Job;
use crate::seat::Seat;
use crate::watch::watch;
use desk_turn::{Kept, Pass, Turn};
use std::sync::Wait;
use std::thread::{self, Threads, join};

// Does the job in each seat, each in a thread of its own where one can be made, and else one after
// another. `for_each_mut` needs no memory, loses no pass, and says of each place what the closure
// ensures.
fn run_all<'t, V: Kept + Send, J: Job<V, R, G> + Sync, R: Threads + Wait + Sync, G: Gate + Sync>(
    rt: &R,
    turn: &Turn<V>,
    job: &J,
    mut seats: Vec<Seat<'t, V, R, G>>,
) -> Vec<Seat<'t, V, R, G>>
    requires { All (λ s. IsPassOf turn.now s.pass × (own s.pass ≡ [])) seats.items }
    ensures count { vec_len result ≡ vec_len seats.entry }
    ensures turns { All (λ s. IsPassOf turn.now s.pass) result.items }
    ensures numbers { (i : ℕ) (d : _) → i < vec_len seats.entry
        → caller_of (slice_index_or result.items i d).pass
        ≡ caller_of (slice_index_or seats.entry.items i d).pass }
    ensures makes { All (λ s. J.makes job.now (caller_of s.pass) (own s.pass)) result.items }
{
    let threads = seats.len();
    if threads == 0 {
        return seats;
    }
    thread::for_each_mut(
        rt,
        seats.as_mut_slice(),
        threads,
        &|_, seat: &mut Seat<'_, V, R, G>|
            requires { own seat.old.pass ≡ [] }
            ensures turn { IsPassOf seat.old.turn.now seat.new.pass }
            ensures number { caller_of seat.new.pass ≡ caller_of seat.old.pass }
            ensures makes { J.makes job.entry.now (caller_of seat.new.pass) (own seat.new.pass) }
        {
            job.work(seat);
            seat.leave();
        },
    );
    seats
}

// The workers, and beside them the one that looks after the value.
//
// `join` runs its first closure in a new thread, or last where none can be made. So the one that
// sleeps until the workers have ended comes first: it never sleeps before a worker that is still
// to be run by the same thread.
pub(crate) fn run_watched<
    't,
    V: Kept + Send,
    J: Job<V, R, G> + Sync,
    R: Threads + Wait + Sync,
    G: Gate + Sync,
>(
    rt: &R,
    turn: &Turn<V>,
    bell: &Bell,
    gate: &G,
    job: &J,
    look: &V::Ask,
    eye: Pass<V>,
    seats: Vec<Seat<'t, V, R, G>>,
) -> (Pass<V>, Vec<Seat<'t, V, R, G>>)
where
    V::Ask: Sync,
    V::Told: Drop + Send,
    requires eye { IsPassOf turn.now eye × All (λ e. e.ask ≡ look.now) (own eye) }
    requires turns { All (λ s. IsPassOf turn.now s.pass × (own s.pass ≡ [])) seats.items }
    ensures eye { IsPassOf turn.now result.0 × (caller_of result.0 ≡ caller_of eye) }
    ensures looks { All (λ e. e.ask ≡ look.now) (own result.0) }
    ensures count { vec_len result.1 ≡ vec_len seats.entry }
    ensures turns { All (λ s. IsPassOf turn.now s.pass) result.1.items }
    ensures numbers { (i : ℕ) (d : _) → i < vec_len seats.entry
        → caller_of (slice_index_or result.1.items i d).pass
        ≡ caller_of (slice_index_or seats.entry.items i d).pass }
    ensures makes { All (λ s. J.makes job.now (caller_of s.pass) (own s.pass)) result.1.items }
{
    join(
        rt,
        move || watch(rt, turn, bell, gate, look, eye),
        move || -> Vec<Seat<'_, V, R, G>>
            requires { IsSync R.row × IsSync J.row × IsSync G.row × IsSend V.row
                × (All (λ s. IsPassOf turn.now s.pass × (own s.pass ≡ [])) seats.items) }
            ensures count { vec_len result ≡ vec_len seats.entry }
            ensures turns { All (λ s. IsPassOf turn.entry.now s.pass) result.items }
            ensures numbers { (i : ℕ) (d : _) → i < vec_len seats.entry
                → caller_of (slice_index_or result.items i d).pass
                ≡ caller_of (slice_index_or seats.entry.items i d).pass }
            ensures makes { All (λ s. J.makes job.entry.now (caller_of s.pass) (own s.pass)) result.items }
        { run_all(rt, turn, job, seats) },
    )
}
