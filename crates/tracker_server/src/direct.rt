// A teller that makes its calls itself.
ghost use Rattle.std.specs.Prelude.{◌≡◌, [], List, IfOk};
ghost use Rattle.tracker_server.specs.Direct.{reply_in, last_of};
ghost use Rattle.tracker_server.specs.Events.{lacks_memory};

use crate::event::Event;
use crate::maker::Maker;
use crate::teller::Teller;
use field_values::Memory;
use std::alloc::Global;
use tracker_calls::{Call, Refusal, Reply, UserName};

/// The worker's number of a teller that makes its calls itself.
const WORKER: u32 = 1;

/// A teller that makes its calls itself, and keeps each with its reply. The memory for an event is taken before its call is made:
/// copies of the user and of the call, and room in the list. The reply is moved into the event, and lent from there.
#[derive(Drop)]
pub struct Direct<M: Maker + Drop> {
    alloc: Global,
    maker: M,
    events: Vec<Event>,
    entered: bool,
    unentered: Reply,
    ghost unentered_is: { unentered ≡ lacks_memory },
}

impl<M: Maker + Drop> Direct<M> {
    /// A teller over what makes the calls, with an empty list.
    pub fn over(alloc: Global, maker: M) -> Self
        ensures maker { result.maker ≡ maker }
        ensures events { result.events.items ≡ [] }
    {
        Direct {
            alloc,
            maker,
            events: Vec::new(alloc),
            entered: false,
            unentered: Reply::Refused(Refusal::Memory),
        }
    }

    /// Hands back what makes the calls, as it is.
    pub fn into_maker(self) -> M
        ensures { result ≡ self.maker }
    {
        let Direct {
            alloc: _,
            maker,
            events: _,
            entered: _,
            unentered: _,
        } = self;
        maker
    }

    /// The events so far, lent.
    pub fn events(&self) -> &[Event]
        ensures { result.now ≡ self.now.events.items }
    {
        self.events.as_slice()
    }
}

impl<M: Maker + Drop> Teller for Direct<M> {
    ghost worker = { λ d. 1 };

    ghost events = { λ d. d.events.items };

    ghost State = { M.State };

    ghost tells = { λ d state. M.tells d.maker state };

    ghost steps = { λ state e next. M.makes state e.caller e.call e.reply next };

    ghost answer = { λ d. reply_in d.entered (last_of d.events.items) };

    #[tactic(auto, using(crate::proofs::Telling::told_entered, crate::proofs::Telling::told_unentered))]
    fn tell(&mut self, caller: &UserName, call: &Call) {
        let prepared = copies(self.alloc, caller, call);
        let Ok((caller_copy, call_copy)) = prepared else {
            self.entered = false;
            return;
        };
        let Ok(()) = self.events.reserve(1) else {
            self.entered = false;
            return;
        };
        let reply = self.maker.call(caller, call);
        self.events.push_reserved(Event {
            worker: WORKER,
            caller: caller_copy,
            call: call_copy,
            reply,
        });
        self.entered = true;
    }

    fn reply(&self) -> &Reply {
        if self.entered {
            if let Some(event) = self.events.last() {
                return &event.reply;
            }
        }
        &self.unentered
    }
}

// Copies of a user and of a call.
fn copies(alloc: Global, caller: &UserName, call: &Call) -> Result<(UserName, Call), Memory>
    ensures { IfOk result (λ copies. copies ≡ (caller.now, call.now)) }
{
    let caller = caller.copy(alloc)?;
    let call = call.copy(alloc)?;
    Ok((caller, call))
}
