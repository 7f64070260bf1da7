//! A server of several workers in which nothing outside failed.
ghost use Rattle.std.specs.Prelude.{◌≡◌, ℕ, map, string_bytes};
ghost use Rattle.run_laws.specs.Twice.{Had};
ghost use Rattle.tracker_cli.specs.Serving.{HasServed, failures_among};
ghost use Rattle.tracker_rounds.specs.declared.round.RoundCause.{RoundCause};
ghost use Rattle.tracker_serve.specs.Serving.{AreOfWords, IsServe};
ghost use Rattle.whole_laws.specs.Connections.{EndsWithLinks, NeitherFailed};

use fields::BUILT_IN;
use std::alloc::Global;
use std::sync::Wait;
use std::thread::Threads;
use tracker_keeper::Keeper;
use tracker_serve::serve;
use tracker_server::Links;
use turn_workers::Gate;

/// Serves links by rounds of workers. Where neither they nor the keeper failed, and the rows that it began with are a tracker's or none,
/// rounds were served until no link was left, and no call was refused since the keeper failed; or there was not enough memory, to begin or
/// between two rounds. It may wait for ever, and what it promises holds once it returns.
pub fn serve_all_by_rounds<
    K: Links + Send + Drop,
    P: Keeper + Send + Drop,
    G: Gate + Sync,
    R: Threads + Wait + Sync,
>(alloc: Global, rt: &R, words: &[String], links: K, keeper: P, gate: &G) -> (u8, K, P)
where
    K::In: Send,
    K::Out: Send,
    K::At: Send,
    ensures { EndsWithLinks
        (NeitherFailed (K.faults links) (K.faults result.1) (P.faults keeper) (P.faults result.2))
        ((port : ℕ) × (workers : ℕ) × IsServe (map string_bytes words.now) port workers)
        (Had P.keeps P.tells keeper result.2) BUILT_IN.now result.0
        (λ refused. (served : HasServed P.keeps P.tells P.faults P.leaves
        (AreOfWords P.keeps P.tells P.faults P.leaves (map string_bytes words.now)
        RoundCause.LinksEnd) BUILT_IN.now keeper result.2)
        × (failures_among served.events ≡ refused)) }
{
    serve(alloc, rt, words, links, keeper, gate)
}
