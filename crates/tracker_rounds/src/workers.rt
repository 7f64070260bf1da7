// Workers that serve connections beside each other, over any value that such calls are asked of.
ghost use Rattle.std.specs.Prelude.{◌≡◌, ◌<◌, ◌≤◌, ◌-◌, ◌∷◌, [], true, Some, All, map, IfOk, IfErr, IsSome};
ghost use Rattle.desk_turn.specs.History.{IsAccountedFor};
ghost use Rattle.desk_turn.specs.Passes.{listed, seen};
ghost use Rattle.request_lines.specs.Causes.{Rose};
ghost use Rattle.tracker_rounds.specs.Seated.{AreOfConnections};
ghost use Rattle.tracker_rounds.specs.Trail.{events_in};
ghost use Rattle.tracker_rounds.specs.declared.link_desk.LinksCause.{LinksCause};
ghost use Rattle.turn_workers.specs.Round.{numbers_from, signed};

use crate::ask::{Ask, Told};
use crate::link_desk::{Begun, LinkDesk, LinksCause};
use crate::served_links::ServeLinks;
use desk_turn::{Kept, Memory};
use std::alloc::Global;
use std::sync::{Mutex, Wait};
use std::thread::Threads;
use tracker_server::Links;
use turn_workers::{Gate, Round, Span, run_workers};

/// How many calls a worker may make in a round: two for each of the 16 requests of each of the 64 connections.
const CALLS: u32 = 2_048;

/// How often may be looked beside the workers. Each of their calls may wake whoever looks, and each look that finds something is
/// followed by another one.
const LOOKS: u32 = 8_192;

/// What workers leave: the round of their calls, or the value where there was no memory to begin, and what is left of the links.
#[derive(Drop)]
pub struct LinkRound<V: Kept, K: Links + Drop> {
    pub made: Result<Round<V>, (Memory, V)>,
    pub links: K,
    pub taken: u32,
    pub cause: LinksCause,
}

/// Lets so many workers serve connections, 64 at most, of which the type tells how they are now, and beside them another one look.
pub fn serve_links<
    N: Begun + Send + Sync,
    V: Kept<Ask = Ask, Told = Told> + Send,
    K: Links + Send + Drop,
    G: Gate + Sync,
    R: Threads + Wait + Sync,
>(rt: &R, alloc: Global, value: V, links: K, gate: &G, workers: u32) -> LinkRound<V, K>
where
    K::In: Send,
    K::Out: Send,
    K::At: Send,
    requires faults { N.faults_before ≡ K.faults links }
    requires told { N.were_told ≡ true → IsSome (K.ahead links) }
    requires empty { V.history value ≡ [] }
    requires workers { workers ≤ 16 }
    ensures origin { IfOk result.made (λ r. V.origin r.value ≡ V.origin value) }
    ensures history { IfOk result.made (λ r. IsAccountedFor (V.history r.value)
        (seen r.first.value) [] ((1, listed r.looks) ∷ map signed r.ended.items)) }
    ensures numbers { IfOk result.made
        (λ r. map (λ e. e.caller) r.ended.items ≡ numbers_from 2 workers) }
    ensures connections { IfOk result.made
        (λ r. All (λ s. AreOfConnections (s.0 - 1) (events_in s.1)) (map signed r.ended.items)) }
    ensures memory { IfErr result.made (λ e. e.1 ≡ value) }
    ensures full { result.cause ≡ LinksCause.Full → result.taken ≡ 64 }
    ensures most { result.taken ≤ 64 }
    ensures told { N.were_told ≡ true → IsSome (K.ahead result.links) }
    ensures ended { result.cause ≡ LinksCause.Ended → N.were_told ≡ true
        → K.ahead result.links ≡ Some [] }
    ensures ended_before { result.cause ≡ LinksCause.Ended → result.taken < 64 }
    ensures fault { result.cause ≡ LinksCause.Failed
        → Rose (K.faults links) (K.faults result.links) }
    ensures failed_before { result.cause ≡ LinksCause.Failed → result.taken < 64 }
    ensures later { K.faults links ≤ K.faults result.links }
{
    let desk: Mutex<LinkDesk<K, N>> = Mutex::new(LinkDesk::new(links));
    let job = ServeLinks {
        rt,
        alloc,
        desk: &desk,
    };
    let span = Span {
        workers: workers as usize,
        calls: CALLS,
        looks: LOOKS,
    };
    let made = run_workers(rt, alloc, value, &job, gate, &Ask::Look, span);
    let (links, taken, cause) = desk.into_inner().into_parts();
    LinkRound {
        made,
        links,
        taken,
        cause,
    }
}
