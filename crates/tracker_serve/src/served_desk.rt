// A desk whose calls a round makes.
ghost use Rattle.std.specs.Prelude.{◌≡◌, ◌<◌};
ghost use Rattle.tracker_cli.specs.Serving.{MakesCall};
ghost use Rattle.tracker_machine.specs.Tracker.{IsTracker};

use crate::due::due_in;
use field_values::Memory;
use fields::Steps;
use std::alloc::Global;
use std::marker::{Brand, Model};
use std::sync::ledger::{Blank, Ledger};
use tracker_calls::{Call, Reply, UserName};
use tracker_core::Desk;
use tracker_keeper::Keeper;
use tracker_rounds::{UserCall, Watched};

/// A desk that makes the calls of requests. Contracts see it as the desk.
#[derive(Drop)]
pub struct ServedDesk<P: Keeper + Drop> {
    alloc: Global,
    desk: Desk<P>,
}

impl<P: Keeper + Drop> Model for ServedDesk<P> {
    ghost use Rattle.tracker_core.specs.Desk.{DeskParts};

    ghost Value = { DeskParts P };

    ghost view = { λ d. d.desk };
}

impl<P: Keeper + Drop> ServedDesk<P> {
    /// That desk.
    pub fn over(alloc: Global, desk: Desk<P>) -> Self
        ensures { result ≡ desk }
    {
        ServedDesk { alloc, desk }
    }

    /// Its state is a tracker's: contracts may cite what holds of each.
    pub fn is_tracker(&self)
        ensures { IsTracker self.now.machine }
    {
        self.desk.is_tracker();
    }

    /// Ends it and hands the keeper back, with its rows as they are.
    pub fn close(self) -> P
        ensures { result ≡ self.keeper }
    {
        let ServedDesk { alloc: _, desk } = self;
        desk.close()
    }
}

impl<P: Keeper + Drop> Watched for ServedDesk<P> {
    ghost use Rattle.tracker_core.specs.Desk.{DeskParts};
    ghost use Rattle.tracker_cli.specs.Serving.{MakesCall, tells_parts};
    ghost use Rattle.tracker_serve.specs.Due.{due_at};

    ghost State = { DeskParts P };

    ghost tells = { tells_parts };

    ghost makes = { MakesCall P.keeps P.tells P.faults P.leaves };

    ghost due = { due_at };

    fn call(&mut self, caller: &UserName, call: &Call) -> Reply {
        counted_call::<Brand, P>(&mut self.desk, caller, call, Blank::new(1))
    }

    fn due_now(&self) -> Result<Option<UserCall>, Memory> {
        due_in(self.alloc, self.desk.state())
    }
}

// Makes a call. Its steps are counted, and the count is let go.
fn counted_call<L: Ledger, P: Keeper + Drop>(
    desk: &mut Desk<P>,
    caller: &UserName,
    call: &Call,
    blank: Blank,
) -> Reply
    // The blank is the ledger's own, with all its parts.
    requires name { blank.name ≡ L.name }
    requires parts { blank.parts ≡ L.parts }
    requires some { 0 < L.parts }
    ensures { MakesCall P.keeps P.tells P.faults P.leaves desk.old caller.now call.now result
        desk.new }
{
    let mut steps = Steps::<L>::new(blank);
    desk.call(caller, call, &mut steps)
}
