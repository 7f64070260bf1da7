ghost use Rattle.std.specs.Prelude.{◌≡◌, ◌<◌, ◌≤◌, ◌+◌, ◌*◌, ◌++◌, ℕ, [], All, map, slice_index_or, vec_len, vec_capacity};
ghost use Rattle.desk_turn.specs.Passes.{IsPassOf, caller_of, left_of, made_of, out_of, seen, own, lists};
ghost use Rattle.turn_workers.specs.Round.{signed, owned};

use crate::bell::Bell;
use crate::ended::Ended;
use crate::gate::Gate;
use crate::seat::Seat;
use desk_turn::{Kept, Pass, Turn};
use std::sync::Wait;

// Splits a pass for each worker, of so many calls each, and makes it a seat. Their numbers are the
// next ones.
pub(crate) fn split_all<'t, V: Kept, R: Wait, G: Gate>(
    rt: &'t R,
    turn: &'t Turn<V>,
    bell: &'t Bell,
    gate: &'t G,
    first: &mut Pass<V>,
    mut seats: Vec<Seat<'t, V, R, G>>,
    workers: usize,
    calls: u32,
) -> Vec<Seat<'t, V, R, G>>
    requires turn { IsPassOf turn.now first.old }
    requires first { caller_of first.old ≡ 0 }
    requires calls { (1 ≤ calls) × (workers * calls ≤ left_of first.old) }
    requires room { (vec_len seats ≡ 0) × (workers ≤ vec_capacity seats) }
    ensures count { vec_len result ≡ workers }
    ensures turns { All (λ s. IsPassOf turn.now s.pass × (own s.pass ≡ [])) result.items }
    ensures numbers { (i : ℕ) (d : _) → i < workers
        → caller_of (slice_index_or result.items i d).pass ≡ 1 + (made_of first.old + i) }
    ensures turn { IsPassOf turn.now first.new }
    ensures first { (caller_of first.new ≡ 0) × (out_of first.new ≡ out_of first.old + workers) }
    ensures stands { (seen first.new ≡ seen first.old) × (own first.new ≡ own first.old)
        × (lists first.new ≡ lists first.old) }
{
    for _ in 0..workers {
        let Ok(pass) = turn.split(first, calls) else {
            unreachable!()
        };
        seats.push_reserved(Seat::new(rt, turn, bell, gate, pass));
    }
    seats
}

// Joins the pass of each seat to the first one, in order, and keeps the receipts.
pub(crate) fn join_all<V: Kept, R: Wait, G: Gate>(
    turn: &Turn<V>,
    first: &mut Pass<V>,
    seats: Vec<Seat<'_, V, R, G>>,
    mut ended: Vec<Ended<V>>,
) -> Vec<Ended<V>>
    requires turn { IsPassOf turn.now first.old }
    requires first { (caller_of first.old ≡ 0) × (out_of first.old ≡ vec_len seats) }
    requires turns { All (λ s. IsPassOf turn.now s.pass × (0 < caller_of s.pass)) seats.items }
    requires room { (ended.items ≡ []) × (vec_len seats ≤ vec_capacity ended) }
    ensures receipts { map signed result.items ≡ map (λ s. owned s.pass) seats.entry.items }
    ensures lists { lists first.new ≡ lists first.old ++ map signed result.items }
    ensures turn { IsPassOf turn.now first.new }
    ensures first { (caller_of first.new ≡ 0) × (out_of first.new ≡ 0)
        × (own first.new ≡ own first.old) }
{
    for seat in seats {
        let pass = seat.into_pass();
        let caller = pass.caller();
        let receipt = turn.join(first, pass);
        ended.push_reserved(Ended { caller, receipt });
    }
    ended
}
