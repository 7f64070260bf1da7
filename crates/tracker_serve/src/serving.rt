// HTTP by rounds of workers.
ghost use Rattle.std.specs.Prelude.{◌≡◌, ◌≢◌, ◌≤◌, ◌⊎◌, ℕ, [], Some, map, string_bytes, IsSome};
ghost use Rattle.request_lines.specs.Causes.{Rose};
ghost use Rattle.tracker_core.specs.Desk.{HasBadRow};
ghost use Rattle.tracker_cli.specs.Outcome.{StaysUnopened};
ghost use Rattle.tracker_cli.specs.Serving.{HasServed};
ghost use Rattle.tracker_rounds.specs.declared.round.RoundCause.{RoundCause};
ghost use Rattle.tracker_serve.specs.Serving.{AreOfRounds, AreOfWords, IsServe};

use crate::rounds::{serve_rounds, status_of};
use crate::served_desk::ServedDesk;
use crate::words::workers_in;
use fields::BUILT_IN;
use std::alloc::Global;
use std::sync::Wait;
use std::thread::Threads;
use tracker_core::{Desk, OpenFault};
use tracker_keeper::Keeper;
use tracker_server::Links;
use turn_workers::Gate;

/// Serves HTTP over the links by rounds of workers for the tracker of the keeper, and hands links and keeper back with the status: 0
/// the links ended; 1 the words aren't `serve PORT WORKERS`; 2 the links failed; 4 the keeper failed before any call; 5 a row that is
/// kept is bad; 6 there was not enough memory, to begin or between two rounds. It may wait for ever, and what it promises holds once
/// it returns.
pub fn serve<
    K: Links + Send + Drop,
    P: Keeper + Send + Drop,
    G: Gate + Sync,
    R: Threads + Wait + Sync,
>(alloc: Global, rt: &R, words: &[String], links: K, keeper: P, gate: &G) -> (u8, K, P)
where
    K::In: Send,
    K::Out: Send,
    K::At: Send,
    // The words are none of the command's.
    ensures usage { result.0 ≡ 1 → (port workers : ℕ)
        → ¬ IsServe (map string_bytes words.now) port workers }
    ensures words { ((port workers : ℕ) → ¬ IsServe (map string_bytes words.now) port workers)
        → result.0 ≡ 1 }

    // No link is left, where they are told; or they failed. Calls were made then, in rounds, from the tracker whose rows the keeper has
    // on, or from a new one; so it is where memory lacked between two rounds.
    ensures ended { result.0 ≡ 0 → IsSome (K.ahead links) → K.ahead result.1 ≡ Some [] }
    ensures link_cause { result.0 ≡ 2 → Rose (K.faults links) (K.faults result.1) }
    ensures served_all { result.0 ≡ 0 → HasServed P.keeps P.tells P.faults P.leaves
        (AreOfWords P.keeps P.tells P.faults P.leaves (map string_bytes words.now)
        RoundCause.LinksEnd) BUILT_IN.now keeper result.2 }
    ensures served_some { result.0 ≡ 2 → HasServed P.keeps P.tells P.faults P.leaves
        (AreOfWords P.keeps P.tells P.faults P.leaves (map string_bytes words.now)
        RoundCause.LinkFault) BUILT_IN.now keeper result.2 }
    ensures lacked { result.0 ≡ 6
        → StaysUnopened P.keeps P.tells P.leaves BUILT_IN.now keeper result.2
        ⊎ HasServed P.keeps P.tells P.faults P.leaves
        (AreOfWords P.keeps P.tells P.faults P.leaves (map string_bytes words.now)
        RoundCause.Memory) BUILT_IN.now keeper result.2 }

    // No desk was opened, and the keeper has the rows that it had.
    ensures keeper_cause { result.0 ≡ 4 → Rose (P.faults keeper) (P.faults result.2) }
    ensures bad { result.0 ≡ 5 →
        (kind : ℕ) × (number : ℕ) × HasBadRow P.keeps P.tells keeper result.2 kind number }
    ensures same { (result.0 ≡ 1) ⊎ (result.0 ≡ 4) ⊎ (result.0 ≡ 5)
        → StaysUnopened P.keeps P.tells P.leaves BUILT_IN.now keeper result.2 }
    ensures later { K.faults links ≤ K.faults result.1 }
    ensures statuses { (result.0 ≤ 6) × (result.0 ≢ 3) }
{
    match workers_in(words) {
        Some(workers) => serve_workers(alloc, rt, links, keeper, gate, workers),
        None => (1, links, keeper),
    }
}

// Serves the links by rounds of so many workers over the desk of what the keeper has.
fn serve_workers<
    K: Links + Send + Drop,
    P: Keeper + Send + Drop,
    G: Gate + Sync,
    R: Threads + Wait + Sync,
>(alloc: Global, rt: &R, links: K, keeper: P, gate: &G, workers: u32) -> (u8, K, P)
where
    K::In: Send,
    K::Out: Send,
    K::At: Send,
    requires workers { (1 ≤ workers) × (workers ≤ 16) }
    // The words were the command's.
    ensures words { result.0 ≢ 1 }
    // No link is left, where they are told, or they failed; or memory lacked. Calls were made then, in rounds.
    ensures ended { result.0 ≡ 0 → IsSome (K.ahead links) → K.ahead result.1 ≡ Some [] }
    ensures link_cause { result.0 ≡ 2 → Rose (K.faults links) (K.faults result.1) }
    ensures served_all { result.0 ≡ 0 → HasServed P.keeps P.tells P.faults P.leaves
        (AreOfRounds P.keeps P.tells P.faults P.leaves workers RoundCause.LinksEnd)
        BUILT_IN.now keeper result.2 }
    ensures served_some { result.0 ≡ 2 → HasServed P.keeps P.tells P.faults P.leaves
        (AreOfRounds P.keeps P.tells P.faults P.leaves workers RoundCause.LinkFault)
        BUILT_IN.now keeper result.2 }
    ensures lacked { result.0 ≡ 6
        → StaysUnopened P.keeps P.tells P.leaves BUILT_IN.now keeper result.2
        ⊎ HasServed P.keeps P.tells P.faults P.leaves
        (AreOfRounds P.keeps P.tells P.faults P.leaves workers RoundCause.Memory)
        BUILT_IN.now keeper result.2 }
    // No desk was opened, and the keeper has its rows as they were.
    ensures keeper_cause { result.0 ≡ 4 → Rose (P.faults keeper) (P.faults result.2) }
    ensures bad { result.0 ≡ 5 →
        (kind : ℕ) × (number : ℕ) × HasBadRow P.keeps P.tells keeper result.2 kind number }
    ensures same { (result.0 ≡ 4) ⊎ (result.0 ≡ 5)
        → StaysUnopened P.keeps P.tells P.leaves BUILT_IN.now keeper result.2 }
    // The links' count of failures never falls.
    ensures later { K.faults links ≤ K.faults result.1 }
    // There is no other status.
    ensures statuses { (result.0 ≤ 6) × (result.0 ≢ 3) }
{
    let desk = match Desk::open(alloc, keeper) {
        Ok(desk) => desk,
        Err((OpenFault::Keeper, keeper)) => return (4, links, keeper),
        Err((OpenFault::BadRow { .. }, keeper)) => return (5, links, keeper),
        Err((OpenFault::Memory, keeper)) => return (6, links, keeper),
        Err((OpenFault::Held, _keeper)) => unreachable!(),
    };
    let served = ServedDesk::over(alloc, desk);
    served.is_tracker();
    let (end, links, served) = serve_rounds(rt, alloc, links, served, gate, workers);
    served.is_tracker();
    (status_of(end), links, served.close())
}
