// A round: connections that workers serve beside each other.
ghost use Rattle.std.specs.Prelude.{◌≡◌, ◌≢◌, ◌<◌, ◌≤◌, ◌-◌, ◌∷◌, [], false, All, Some, map, IfSome, IfNone, IsSome};
ghost use Rattle.desk_turn.specs.History.{IsAccountedFor};
ghost use Rattle.desk_turn.specs.Passes.{listed, seen};
ghost use Rattle.request_lines.specs.Causes.{Rose};
ghost use Rattle.tracker_rounds.specs.Rounds.{HasLooked, IsAccountedWithLook};
ghost use Rattle.tracker_rounds.specs.Seated.{AreOfConnections};
ghost use Rattle.tracker_rounds.specs.Serving.{IsServed};
ghost use Rattle.tracker_rounds.specs.Trail.{entry_of, events_in};
ghost use Rattle.tracker_rounds.specs.declared.link_desk.LinksCause.{LinksCause};
ghost use Rattle.tracker_rounds.specs.declared.round.RoundCause.{RoundCause};
ghost use Rattle.turn_workers.specs.Round.{numbers_from, signed};

use crate::ask::Entered;
use crate::link_desk::LinksCause;
use crate::served::Served;
use crate::watched::Watched;
use crate::workers::{LinkRound, serve_links};
use desk_turn::{Kept, Receipt};
use std::alloc::Global;
use std::marker::Brand;
use std::sync::Wait;
use std::thread::Threads;
use tracker_server::Links;
use turn_workers::{Ended, Gate, Round};

/// Why a round ended.
#[derive(Clone, Copy, PartialEq, Eq)]
pub enum RoundCause {
    /// It has taken 64 connections.
    Full,

    /// There is no connection any more.
    LinksEnd,

    /// The connections failed.
    LinkFault,

    /// There was not enough memory, to begin or for what was due at the end.
    Memory,
}

/// What the workers of a round had called.
#[derive(Drop)]
pub struct Receipts<V: Kept> {
    /// Those of worker 0, but for the last look.
    pub looks: Receipt<V>,

    /// Those of the others, in order.
    pub workers: Vec<Ended<V>>,
}

/// What a round leaves. There are no receipts where it ended before its workers.
#[derive(Drop)]
pub struct RoundEnd<K: Links + Drop, M: Drop, V: Kept> {
    pub maker: M,
    pub links: K,
    /// How many connections were taken.
    pub taken: u32,
    pub trail: Vec<Entered>,
    pub receipts: Option<Receipts<V>>,
    pub end: RoundCause,
}

/// A round: so many workers take connections one after another, 64 at most, each until it ends, and have the calls of their
/// requests made, one at a time. Beside them worker 0 does what becomes due. It may wait for ever; what it promises holds once it
/// returns.
pub fn serve_round<
    K: Links + Send + Drop,
    M: Watched + Send + Drop,
    G: Gate + Sync,
    R: Threads + Wait + Sync,
>(rt: &R, alloc: Global, links: K, maker: M, gate: &G, workers: u32) -> RoundEnd<K, M, Served<M>>
where
    K::In: Send,
    K::Out: Send,
    K::At: Send,
    requires workers { (1 ≤ workers) × (workers ≤ 16) }
    // The calls of the trail lead from the maker that was handed in to the one that is handed back. Worker 0 makes just what is
    // due, and never more calls than the others.
    ensures served { IsServed M.tells M.makes M.due maker
        (events_in (map entry_of result.trail.items)) result.maker }
    // Each call is on the receipt of its worker, but that of the last look, and each receipt is just that worker's calls: of one
    // that serves those of connections, one behind another.
    ensures accounted { IfSome result.receipts (λ r. IsAccountedWithLook
        (map entry_of result.trail.items) (listed r.looks) (map signed r.workers.items)) }
    ensures numbers { IfSome result.receipts
        (λ r. map (λ e. e.caller) r.workers.items ≡ numbers_from 2 workers) }
    ensures connections { IfSome result.receipts
        (λ r. All (λ s. AreOfConnections (s.0 - 1) (events_in s.1)) (map signed r.workers.items)) }
    // Nothing is left undone that worker 0 may do.
    ensures looked { result.end ≢ RoundCause.Memory → HasLooked M.tells M.due
        (map entry_of result.trail.items) result.maker }
    // Without receipts no worker began, and all is as it was.
    ensures unbegun { IfNone result.receipts ((result.end ≡ RoundCause.Memory)
        × (result.maker ≡ maker) × (map entry_of result.trail.items ≡ [])) }
    // The round is full exactly where it took 64 connections.
    ensures full { result.end ≡ RoundCause.Full → result.taken ≡ 64 }
    ensures most { result.taken ≤ 64 }
    ensures ended_before { result.end ≡ RoundCause.LinksEnd → result.taken < 64 }
    ensures failed_before { result.end ≡ RoundCause.LinkFault → result.taken < 64 }
    // Links that were told are told on, and that they ended is said only where none is left. That they failed is said only where
    // their count of faults rose, which never falls.
    ensures told { IsSome (K.ahead links) → IsSome (K.ahead result.links) }
    ensures ended { result.end ≡ RoundCause.LinksEnd → IsSome (K.ahead links)
        → K.ahead result.links ≡ Some [] }
    ensures fault { result.end ≡ RoundCause.LinkFault
        → Rose (K.faults links) (K.faults result.links) }
    ensures later { K.faults links ≤ K.faults result.links }
{
    let served = Served::over(alloc, maker);
    let LinkRound {
        made,
        links,
        taken,
        cause,
    } = serve_links::<Brand, Served<M>, K, G, R>(rt, alloc, served, links, gate, workers);
    match made {
        Ok(round) => {
            let Looked {
                maker,
                trail,
                receipts,
                lacked,
            } = look_at_last(round);
            RoundEnd {
                maker,
                links,
                taken,
                trail,
                receipts: Some(receipts),
                end: round_cause(lacked, cause),
            }
        }
        Err((_, served)) => {
            let (maker, trail) = served.into_parts();
            RoundEnd {
                maker,
                links,
                taken,
                trail,
                receipts: None,
                end: RoundCause::Memory,
            }
        }
    }
}

// What the last look leaves.
#[derive(Drop)]
struct Looked<M: Drop, V: Kept> {
    maker: M,
    trail: Vec<Entered>,
    receipts: Receipts<V>,
    // There was no memory for what was due.
    lacked: bool,
}

// The last look, where worker 0 is behind the others.
fn look_at_last<M: Watched + Drop>(round: Round<Served<M>>) -> Looked<M, Served<M>>
    requires { IsAccountedFor round.value.1 (seen round.first.value) []
        ((1, listed round.looks) ∷ map signed round.ended.items) }
    ensures served { IsServed M.tells M.makes M.due round.value.0
        (events_in (map entry_of result.trail.items)) result.maker }
    ensures accounted { IsAccountedWithLook (map entry_of result.trail.items)
        (listed result.receipts.looks) (map signed result.receipts.workers.items) }
    ensures workers { result.receipts.workers ≡ round.ended }
    ensures looked { result.lacked ≡ false → HasLooked M.tells M.due
        (map entry_of result.trail.items) result.maker }
{
    let Round {
        value,
        looks,
        ended,
        first: _,
    } = round;
    let mut served = value;
    let lacked = served.look_at_last();
    let (maker, trail) = served.into_parts();
    Looked {
        maker,
        trail,
        receipts: Receipts {
            looks,
            workers: ended,
        },
        lacked,
    }
}

// Why a round ended whose workers have ended. They serve until no connection comes, so that it would take no further one.
fn round_cause(lacked: bool, cause: LinksCause) -> RoundCause
    ensures lacked { result ≢ RoundCause.Memory → lacked ≡ false }
    ensures failed { result ≡ RoundCause.LinkFault → cause ≡ LinksCause.Failed }
    ensures full { result ≡ RoundCause.Full → cause ≡ LinksCause.Full }
    ensures ended { result ≡ RoundCause.LinksEnd → cause ≡ LinksCause.Ended }
{
    if lacked {
        return RoundCause::Memory;
    }
    match cause {
        LinksCause::Full => RoundCause::Full,
        LinksCause::Ended => RoundCause::LinksEnd,
        LinksCause::Failed => RoundCause::LinkFault,
        LinksCause::Open => RoundCause::Memory,
    }
}
