// HTTP over connections that come one after another.
ghost use Rattle.std.specs.Prelude.{◌≡◌, ◌≢◌, ◌<◌, ◌≤◌, ◌⊎◌, ℕ, List, [], Some, map, string_bytes, IfSome, IfNone, IsSome};
ghost use Rattle.request_lines.specs.Causes.{Rose};
ghost use Rattle.tracker_core.specs.Desk.{HasBadRow};
ghost use Rattle.tracker_cli.specs.Outcome.{StaysUnopened};
ghost use Rattle.tracker_server.specs.Served.{AreOfLinks};
ghost use Rattle.tracker_cli.specs.Serving.{MakesCall, IsServe, HasServed};

use crate::exec::RequestLines;
use crate::number::port_of;
use fields::{BUILT_IN, Steps};
use std::alloc::Global;
use std::marker::Brand;
use std::sync::Wait;
use std::sync::ledger::{Blank, Ledger};
use tracker_core::{Desk, OpenFault};
use tracker_keeper::Keeper;
use tracker_server::{Links, LinksEnd, serve_links};

/// The port of the words `serve PORT`; `None` exactly where the words are others.
fn port_in(words: &[String]) -> Option<u16>
    ensures some { IfSome result (IsServe (map string_bytes words.now)) }
    ensures none { IfNone result ((port : ℕ) → ¬ IsServe (map string_bytes words.now) port) }
{
    match words {
        [word, port] => {
            if word.as_str() == "serve" {
                return port_of(port.as_str());
            }
            None
        }
        _ => None,
    }
}

/// Serves HTTP over the links, one after another, for the tracker of the keeper, and hands links and keeper back with the status: 0
/// the links ended; 1 the words aren't `serve PORT`; 2 the links failed; 4 the keeper failed before any call; 5 a row that is kept is
/// bad; 6 there was not enough memory to begin. It may wait for ever, and what it promises holds once it returns.
pub fn serve<R: Wait, K: Links, P: Keeper + Drop>(
    alloc: Global,
    rt: &R,
    words: &[String],
    links: K,
    keeper: P,
) -> (u8, K, P)
    // The words are none of the command's.
    ensures usage { result.0 ≡ 1 → (port : ℕ) → ¬ IsServe (map string_bytes words.now) port }
    ensures words { ((port : ℕ) → ¬ IsServe (map string_bytes words.now) port) → result.0 ≡ 1 }

    // No link is left, where they are told; or they failed. Calls were made then, one after another, from the tracker whose
    // rows the keeper has on, or from a new one.
    ensures ended { result.0 ≡ 0 → IsSome (K.ahead links) → K.ahead result.1 ≡ Some [] }
    ensures link_cause { result.0 ≡ 2 → Rose (K.faults links) (K.faults result.1) }
    ensures served { (result.0 ≡ 0) ⊎ (result.0 ≡ 2)
        → HasServed P.keeps P.tells P.faults P.leaves
        (AreOfLinks K.In.left K.At.ahead (MakesCall P.keeps P.tells P.faults P.leaves)
        (K.ahead links) (K.ahead result.1))
        BUILT_IN.now keeper result.2 }

    // No desk was opened, and the keeper has the rows that it had.
    ensures keeper_cause { result.0 ≡ 4 → Rose (P.faults keeper) (P.faults result.2) }
    ensures bad { result.0 ≡ 5 →
        (kind : ℕ) × (number : ℕ) × HasBadRow P.keeps P.tells keeper result.2 kind number }
    ensures same { (result.0 ≢ 0) → (result.0 ≢ 2)
        → StaysUnopened P.keeps P.tells P.leaves BUILT_IN.now keeper result.2 }
    ensures later { K.faults links ≤ K.faults result.1 }
    ensures statuses { (result.0 ≤ 6) × (result.0 ≢ 3) }
{
    if port_in(words).is_none() {
        return (1, links, keeper);
    }
    serve_desk::<Brand, R, K, P>(alloc, rt, links, keeper, Blank::new(1))
}

// Serves the links over the desk of what the keeper has. The steps are counted, and the count is let go.
fn serve_desk<L: Ledger, R: Wait, K: Links, P: Keeper + Drop>(
    alloc: Global,
    rt: &R,
    links: K,
    keeper: P,
    blank: Blank,
) -> (u8, K, P)
    // The blank is the ledger's own, with all its parts.
    requires name { blank.name ≡ L.name }
    requires parts { blank.parts ≡ L.parts }
    requires some { 0 < L.parts }
    // The words were the command's.
    ensures words { result.0 ≢ 1 }
    // No link is left, where they are told, or they failed; calls were made then, one after
    // another.
    ensures ended { result.0 ≡ 0 → IsSome (K.ahead links) → K.ahead result.1 ≡ Some [] }
    ensures link_cause { result.0 ≡ 2 → Rose (K.faults links) (K.faults result.1) }
    ensures served { (result.0 ≡ 0) ⊎ (result.0 ≡ 2)
        → HasServed P.keeps P.tells P.faults P.leaves
        (AreOfLinks K.In.left K.At.ahead (MakesCall P.keeps P.tells P.faults P.leaves)
        (K.ahead links) (K.ahead result.1))
        BUILT_IN.now keeper result.2 }
    // No desk was opened, and the keeper has its rows as they were.
    ensures keeper_cause { result.0 ≡ 4 → Rose (P.faults keeper) (P.faults result.2) }
    ensures bad { result.0 ≡ 5 →
        (kind : ℕ) × (number : ℕ) × HasBadRow P.keeps P.tells keeper result.2 kind number }
    ensures same { (result.0 ≢ 0) → (result.0 ≢ 2)
        → StaysUnopened P.keeps P.tells P.leaves BUILT_IN.now keeper result.2 }
    // The links' count of failures never falls.
    ensures later { K.faults links ≤ K.faults result.1 }
    // There is no other status.
    ensures statuses { (result.0 ≤ 6) × (result.0 ≢ 3) }
{
    let desk = match Desk::open(alloc, keeper) {
        Ok(desk) => desk,
        Err((OpenFault::Keeper, keeper)) => return (4, links, keeper),
        Err((OpenFault::BadRow { .. }, keeper)) => return (5, links, keeper),
        Err((OpenFault::Memory, keeper)) => return (6, links, keeper),
        Err((OpenFault::Held, _keeper)) => unreachable!(),
    };
    let requests = RequestLines::new(alloc, desk, Steps::<L>::new(blank));
    requests.is_tracker();
    let (end, links, requests) = serve_links(alloc, rt, links, requests);
    requests.is_tracker();
    (status_of(end), links, requests.close())
}

// The status of why no further connection was served.
fn status_of(end: LinksEnd) -> u8
    ensures ended { result ≡ 0 → end ≡ LinksEnd.Ended }
    ensures failed { result ≡ 2 → end ≡ LinksEnd.Failed }
    ensures either { (result ≡ 0) ⊎ (result ≡ 2) }
{
    match end {
        LinksEnd::Ended => 0,
        LinksEnd::Failed => 2,
    }
}
