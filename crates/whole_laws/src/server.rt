//! A server in which nothing outside failed.
ghost use Rattle.std.specs.Prelude.{◌≡◌, ℕ, map, string_bytes};
ghost use Rattle.run_laws.specs.Twice.{Had};
ghost use Rattle.tracker_server.specs.Served.{AreOfLinks};
ghost use Rattle.tracker_cli.specs.Serving.{MakesCall, IsServe, HasServed, failures_among};
ghost use Rattle.whole_laws.specs.Connections.{EndsWithLinks, NeitherFailed};

use fields::BUILT_IN;
use std::alloc::Global;
use std::sync::Wait;
use tracker_cli::serve;
use tracker_keeper::Keeper;
use tracker_server::Links;

/// Serves links. Where neither they nor the keeper failed, and the rows that it began with are a tracker's or none, the links were served
/// until none was left, and no call was refused since the keeper failed; or there was not enough memory to begin. It may wait for ever, and
/// what it promises holds once it returns.
pub fn serve_all<R: Wait, K: Links, P: Keeper + Drop>(
    alloc: Global,
    rt: &R,
    words: &[String],
    links: K,
    keeper: P,
) -> (u8, K, P)
    ensures { EndsWithLinks
        (NeitherFailed (K.faults links) (K.faults result.1) (P.faults keeper) (P.faults result.2))
        ((port : ℕ) × IsServe (map string_bytes words.now) port)
        (Had P.keeps P.tells keeper result.2) BUILT_IN.now result.0
        (λ refused. (served : HasServed P.keeps P.tells P.faults P.leaves
        (AreOfLinks K.In.left K.At.ahead (MakesCall P.keeps P.tells P.faults P.leaves)
        (K.ahead links) (K.ahead result.1))
        BUILT_IN.now keeper result.2) × (failures_among served.events ≡ refused)) }
{
    serve(alloc, rt, words, links, keeper)
}
