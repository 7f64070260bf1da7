// A worker that serves connections.
ghost use Rattle.std.specs.Prelude.{◌≡◌, ◌-◌};
ghost use Rattle.tracker_rounds.specs.Seated.{AreOfConnections};
ghost use Rattle.tracker_rounds.specs.Trail.{events_in};

use crate::ask::{Ask, Told};
use crate::link_desk::{Begun, LinkDesk, take_link};
use crate::seated::{LastCall, Seated};
use crate::sits::Sits;
use desk_turn::Kept;
use request_lines::{Clock, Sink, Source};
use std::alloc::Global;
use std::sync::{Mutex, Wait};
use tracker_server::{Links, NextLink, serve_connection};
use turn_workers::{Gate, Job, Seat};

/// Serves connections, each until it ends, however it ends, until the desk gives no more.
#[derive(Drop)]
pub struct ServeLinks<'d, R: Wait, K: Links + Drop, N: Begun> {
    pub rt: &'d R,
    pub alloc: Global,
    pub desk: &'d Mutex<LinkDesk<K, N>>,
}

impl<'d, V: Kept<Ask = Ask, Told = Told>, R: Wait, G: Gate, K: Links + Drop, N: Begun> Job<V, R, G>
    for ServeLinks<'d, R, K, N> {
    ghost use Rattle.std.specs.Prelude.{◌-◌};
    ghost use Rattle.tracker_rounds.specs.Seated.{AreOfConnections};
    ghost use Rattle.tracker_rounds.specs.Trail.{events_in};

    ghost makes = { λ job by calls. AreOfConnections (by - 1) (events_in calls) };

    #[tactic(auto, using(crate::proofs::Connections::connections_none))]
    fn work(&self, seat: &mut Seat<'_, V, R, G>) {
        for _ in self.rt.forever() {
            match take_link(self.rt, self.desk) {
                NextLink::Link {
                    source,
                    sink,
                    clock,
                } => serve_link(self.alloc, source, sink, clock, seat),
                NextLink::End | NextLink::Failed => return,
            }
        }
        unreachable!()
    }
}

// Serves one connection.
fn serve_link<S: Source + Drop, T: Sink + Drop, C: Clock + Drop, Z: Sits>(
    alloc: Global,
    source: S,
    sink: T,
    clock: C,
    seat: &mut Z,
)
    requires { AreOfConnections ((Z.place seat.old).number - 1) (events_in (Z.own seat.old)) }
    ensures place { Z.place seat.new ≡ Z.place seat.old }
    ensures made { AreOfConnections ((Z.place seat.new).number - 1) (events_in (Z.own seat.new)) }
{
    let mut last = LastCall::none(alloc);
    let mut teller = Seated {
        seat,
        last: &mut last,
    };
    serve_seated(alloc, source, sink, clock, &mut teller);
    let Seated { seat: _, last: _ } = teller;
}

// Serves one connection, whose calls are asked for from a seat.
fn serve_seated<S: Source + Drop, T: Sink + Drop, C: Clock + Drop, Z: Sits>(
    alloc: Global,
    source: S,
    sink: T,
    clock: C,
    teller: &mut Seated<'_, '_, Z>,
)
    requires { AreOfConnections ((Z.place teller.old.seat.now).number - 1)
        (events_in (Z.own teller.old.seat.now)) }
    ensures same_reference { teller.new.seat.ghost_name ≡ teller.old.seat.ghost_name }
    ensures place { Z.place teller.new.seat.now ≡ Z.place teller.old.seat.now }
    ensures made { AreOfConnections ((Z.place teller.new.seat.now).number - 1)
        (events_in (Z.own teller.new.seat.now)) }
{
    let mut source = source;
    let mut sink = sink;
    let mut clock = clock;
    let _ = serve_connection(alloc, &mut source, &mut sink, &mut clock, teller);
}
