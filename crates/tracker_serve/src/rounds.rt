// One round after another.
ghost use Rattle.std.specs.Prelude.{◌≡◌, ◌≢◌, ◌≤◌, ◌⊎◌, [], Some, IsSome};
ghost use Rattle.request_lines.specs.Causes.{Rose};
ghost use Rattle.tracker_rounds.specs.declared.round.RoundCause.{RoundCause};
ghost use Rattle.tracker_serve.specs.Serving.{HasEndedRounds};

use crate::desk_round::serve_desk_round;
use crate::served_desk::ServedDesk;
use std::alloc::Global;
use std::sync::Wait;
use std::thread::Threads;
use tracker_keeper::Keeper;
use tracker_rounds::{RoundCause, RoundEnd};
use tracker_server::Links;
use turn_workers::Gate;

/// One round after another, as long as each takes as many connections as it may.
#[tactic(auto, using(crate::proofs::ManyRounds::made_none))]
pub fn serve_rounds<
    K: Links + Send + Drop,
    P: Keeper + Send + Drop,
    G: Gate + Sync,
    R: Threads + Wait + Sync,
>(
    rt: &R,
    alloc: Global,
    links: K,
    desk: ServedDesk<P>,
    gate: &G,
    workers: u32,
) -> (RoundCause, K, ServedDesk<P>)
where
    K::In: Send,
    K::Out: Send,
    K::At: Send,
    requires workers { (1 ≤ workers) × (workers ≤ 16) }
    ensures made { HasEndedRounds P.keeps P.tells P.faults P.leaves workers result.0 desk
        result.2 }
    ensures end { result.0 ≢ RoundCause.Full }
    ensures ended { result.0 ≡ RoundCause.LinksEnd → IsSome (K.ahead links)
        → K.ahead result.1 ≡ Some [] }
    ensures fault { result.0 ≡ RoundCause.LinkFault → Rose (K.faults links) (K.faults result.1) }
    ensures later { K.faults links ≤ K.faults result.1 }
{
    let mut links = links;
    let mut desk = desk;
    for _ in rt.forever() {
        let RoundEnd {
            maker,
            links: left,
            taken: _,
            trail: _,
            receipts: _,
            end,
        } = serve_desk_round(rt, alloc, links, desk, gate, workers);
        links = left;
        desk = maker;
        match end {
            RoundCause::Full => {}
            RoundCause::LinksEnd => return (RoundCause::LinksEnd, links, desk),
            RoundCause::LinkFault => return (RoundCause::LinkFault, links, desk),
            RoundCause::Memory => return (RoundCause::Memory, links, desk),
        }
    }
    unreachable!()
}

/// The status of why no further round is served.
pub fn status_of(end: RoundCause) -> u8
    requires { end ≢ RoundCause.Full }
    ensures ended { result ≡ 0 → end ≡ RoundCause.LinksEnd }
    ensures failed { result ≡ 2 → end ≡ RoundCause.LinkFault }
    ensures lacked { result ≡ 6 → end ≡ RoundCause.Memory }
    ensures either { (result ≡ 0) ⊎ (result ≡ 2) ⊎ (result ≡ 6) }
{
    match end {
        RoundCause::LinksEnd => 0,
        RoundCause::LinkFault => 2,
        RoundCause::Memory => 6,
        RoundCause::Full => unreachable!(),
    }
}
