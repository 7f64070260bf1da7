// Connections that are served one after another.
ghost use Rattle.std.specs.Prelude.{◌≡◌, ◌≤◌, [], Some, IsSome};
ghost use Rattle.request_lines.specs.Causes.{Rose};
ghost use Rattle.tracker_server.specs.Served.{HasMadeCalls, HasServedLink};

use crate::direct::Direct;
use crate::links::{Links, NextLink};
use crate::maker::Maker;
use crate::serve::serve_connection;
use request_lines::{Clock, Sink, Source};
use std::alloc::Global;
use std::sync::Wait;

/// Why no further connection is served.
#[derive(Clone, Copy, PartialEq, Eq)]
pub enum LinksEnd {
    /// There is none any more.
    Ended,

    /// They failed.
    Failed,
}

/// Serves one connection after another, each until it ends, however it ends. It may wait for ever; what it promises holds once it
/// returns.
#[tactic(auto, using(crate::proofs::Served::made_none))]
pub fn serve_links<R: Wait, K: Links, M: Maker + Drop>(
    alloc: Global,
    rt: &R,
    links: K,
    maker: M,
) -> (LinksEnd, K, M)
    ensures made { HasMadeCalls K.In.left K.At.ahead M.tells M.makes
        (K.ahead links) (K.ahead result.1) maker result.2 }
    ensures ended { result.0 ≡ LinksEnd.Ended → IsSome (K.ahead links)
        → K.ahead result.1 ≡ Some [] }
    ensures failed { result.0 ≡ LinksEnd.Failed → Rose (K.faults links) (K.faults result.1) }
    ensures later { K.faults links ≤ K.faults result.1 }
{
    let mut links = links;
    let mut maker = maker;
    for _ in rt.forever() {
        match links.next() {
            NextLink::Link {
                source,
                sink,
                clock,
            } => {
                maker = serve_link(alloc, source, sink, clock, maker);
            }
            NextLink::End => return (LinksEnd::Ended, links, maker),
            NextLink::Failed => return (LinksEnd::Failed, links, maker),
        }
    }
    unreachable!()
}

// Serves one connection.
fn serve_link<S: Source + Drop, T: Sink + Drop, C: Clock + Drop, M: Maker + Drop>(
    alloc: Global,
    source: S,
    sink: T,
    clock: C,
    maker: M,
) -> M
    ensures { HasServedLink M.tells M.makes (S.left source) (C.ahead clock) maker result }
{
    let mut source = source;
    let mut sink = sink;
    let mut clock = clock;
    let mut teller = Direct::over(alloc, maker);
    let _ = serve_connection(alloc, &mut source, &mut sink, &mut clock, &mut teller);
    teller.into_maker()
}
