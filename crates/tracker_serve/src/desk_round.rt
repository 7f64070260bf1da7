// A round over a desk.
ghost use Rattle.std.specs.Prelude.{◌≡◌, ◌<◌, ◌≤◌, [], Some, map, IsSome};
ghost use Rattle.request_lines.specs.Causes.{Rose};
ghost use Rattle.tracker_rounds.specs.Trail.{entry_of};
ghost use Rattle.tracker_rounds.specs.declared.round.RoundCause.{RoundCause};
ghost use Rattle.tracker_serve.specs.Round.{IsRound, called_in};

use crate::served_desk::ServedDesk;
use std::alloc::Global;
use std::sync::Wait;
use std::thread::Threads;
use tracker_keeper::Keeper;
use tracker_rounds::{RoundEnd, Served, serve_round};
use tracker_server::Links;
use turn_workers::Gate;

/// A round over a desk: so many workers serve connections beside each other, 64 at most, each until it ends, while the calls of their
/// requests are made one at a time, and worker 0 rebalances the ranks where that is due. **Their answers are those of one thread**: the
/// trail has each call with the reply of the abstract tracker at that point. It may wait for ever; what it promises holds once it
/// returns.
pub fn serve_desk_round<
    K: Links + Send + Drop,
    P: Keeper + Send + Drop,
    G: Gate + Sync,
    R: Threads + Wait + Sync,
>(
    rt: &R,
    alloc: Global,
    links: K,
    desk: ServedDesk<P>,
    gate: &G,
    workers: u32,
) -> RoundEnd<K, ServedDesk<P>, Served<ServedDesk<P>>>
where
    K::In: Send,
    K::Out: Send,
    K::At: Send,
    requires workers { (1 ≤ workers) × (workers ≤ 16) }
    ensures round { IsRound P.keeps P.tells P.faults P.leaves workers result.end
        (called_in result.receipts) desk (map entry_of result.trail.items) result.maker }
    // It is full exactly at 64 connections. Where they are told they are told on, and none is left where they ended; that they failed
    // is told only where their count of faults rose, which never falls.
    ensures full { result.end ≡ RoundCause.Full → result.taken ≡ 64 }
    ensures most { result.taken ≤ 64 }
    ensures ended_before { result.end ≡ RoundCause.LinksEnd → result.taken < 64 }
    ensures failed_before { result.end ≡ RoundCause.LinkFault → result.taken < 64 }
    ensures told { IsSome (K.ahead links) → IsSome (K.ahead result.links) }
    ensures ended { result.end ≡ RoundCause.LinksEnd → IsSome (K.ahead links)
        → K.ahead result.links ≡ Some [] }
    ensures fault { result.end ≡ RoundCause.LinkFault
        → Rose (K.faults links) (K.faults result.links) }
    ensures later { K.faults links ≤ K.faults result.links }
{
    serve_round(rt, alloc, links, desk, gate, workers)
}
