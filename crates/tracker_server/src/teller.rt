// What has calls made.
ghost use Rattle.std.specs.Prelude.{◌≡◌, List, ℕ};
ghost use Rattle.tracker_calls.specs.declared.reply.Reply.{Reply};
ghost use Rattle.tracker_server.specs.declared.event.Event.{Event};
ghost use Rattle.tracker_server.specs.Events.{event, IsTold};

use tracker_calls::{Call, Reply, UserName};

/// What has calls made, one after another, and keeps them with their replies. The reply is kept too where the call isn't, so that
/// it is lent and nobody needs memory for it once the call was made.
pub trait Teller {
    /// The worker whose calls these are.
    ghost worker: { Self → ℕ };

    /// The calls that were made, with their replies.
    ghost events: { Self → List Event };

    /// The states of what makes the calls.
    ghost State: { Type 0 };

    /// It tells that this is the state. One that can't tell it says so by never telling.
    ghost tells: { Self → Self.State → Type 0 };

    /// In this state, the call may have that reply, and lead to that state.
    ghost steps: { Self.State → Event → Self.State → Type 0 };

    /// The reply to the last call.
    ghost answer: { Self → Reply };

    /// Has a call made by that user. It is entered with its reply; or it changed nothing, was answered that memory lacked, and
    /// isn't entered.
    fn tell(&mut self, caller: &UserName, call: &Call)
        ensures worker { Self.worker self.new ≡ Self.worker self.old }
        ensures told { IsTold Self.events Self.tells Self.steps self.old self.new
            (event (Self.worker self.old) caller.now call.now (Self.answer self.new)) };

    /// The reply to the last call, lent.
    fn reply(&self) -> &Reply
        ensures { result.now ≡ Self.answer self.now };
}
