// A teller over a seat of a round.
ghost use Rattle.std.specs.Prelude.{◌≡◌, IfOk};
ghost use Rattle.tracker_rounds.specs.Seated.{asks_call, lacks_memory, reply_of};

use crate::ask::{Ask, Told, UserCall};
use crate::sits::Sits;
use field_values::Memory;
use std::alloc::Global;
use tracker_calls::{Call, Refusal, Reply, UserName};
use tracker_server::Teller;

/// What a teller keeps of its last call, and what it needs for the next one.
#[derive(Drop)]
pub struct LastCall {
    alloc: Global,
    told: Option<Told>,
    unentered: Reply,
    ghost unentered_is: { unentered ≡ lacks_memory },
}

impl LastCall {
    /// Before the first call.
    pub fn none(alloc: Global) -> Self {
        LastCall {
            alloc,
            told: None,
            unentered: Reply::Refused(Refusal::Memory),
        }
    }

    // The reply to it, lent.
    fn reply(&self) -> &Reply
        ensures { result.now ≡ reply_of self.now.told }
    {
        match &self.told {
            Some(told) => &told.reply,
            None => &self.unentered,
        }
    }
}

/// A teller that asks for its calls from a seat. Its list is what was entered from there. The user and the call are copied before a
/// call is made; the reply is moved out of it, so that nothing needs memory behind it. It owns no memory itself, so that whoever lent
/// the seat knows of it what the calls came to.
#[derive(Drop)]
pub struct Seated<'s, 'l, Z: Sits> {
    pub(crate) seat: &'s mut Z,
    pub(crate) last: &'l mut LastCall,
}

impl<'s, 'l, Z: Sits> Teller for Seated<'s, 'l, Z> {
    ghost use Rattle.std.specs.Prelude.{◌≡◌, ◌-◌};
    ghost use Rattle.std.specs.Borrow.{GName};
    ghost use Rattle.tracker_rounds.specs.Seated.{Place, reply_of};
    ghost use Rattle.tracker_rounds.specs.Trail.{events_in};

    ghost worker = { λ s. (Z.place s.seat.now).number - 1 };

    ghost events = { λ s. events_in (Z.own s.seat.now) };

    ghost State = { GName × Place };

    // Others make calls in between, so it can't tell a state of what makes them. It tells which seat it is, and its place.
    ghost tells = { λ s state. (s.seat.ghost_name ≡ state.0) × (Z.place s.seat.now ≡ state.1) };

    ghost steps = { λ old e new. new ≡ old };

    ghost answer = { λ s. reply_of s.last.now.told };

    fn tell(&mut self, caller: &UserName, call: &Call) {
        self.last.told = None;
        let Ok(ask) = ask_for(self.last.alloc, caller, call) else {
            return;
        };
        match self.seat.ask(&ask) {
            Ok(Some(told)) => self.last.told = Some(told),
            Ok(None) => {}
            Err(_) => {}
        }
    }

    fn reply(&self) -> &Reply {
        self.last.reply()
    }
}

// To ask for that user's call.
fn ask_for(alloc: Global, caller: &UserName, call: &Call) -> Result<Ask, Memory>
    ensures { IfOk result (λ ask. ask ≡ asks_call caller.now call.now) }
{
    let user = caller.copy(alloc)?;
    let call = call.copy(alloc)?;
    Ok(Ask::Call(UserCall { user, call }))
}
