// What makes calls, and says what becomes due.
ghost use Rattle.std.specs.Prelude.{◌≡◌, List, ℕ, Option, IfOk};
ghost use Rattle.tracker_calls.specs.declared.call.Call.{Call};
ghost use Rattle.tracker_calls.specs.declared.reply.Reply.{Reply};
ghost use Rattle.tracker_rounds.specs.declared.ask.UserCall.{UserCall};

use crate::ask::UserCall;
use field_values::Memory;
use tracker_calls::{Call, Reply, UserName};

/// What makes calls, one at a time, as a desk does, and says which one is due.
pub trait Watched {
    /// Its states.
    ghost State: { Type 0 };

    /// This is its state, so far as it tells it.
    ghost tells: { Self → Self.State → Type 0 };

    /// In this state, the call of that user may have that reply, and lead to that state.
    ghost makes: { Self.State → List ℕ → Call → Reply → Self.State → Type 0 };

    /// The call that is due in a state, by whom; `None` where none is.
    ghost due: { Self.State → Option UserCall };

    /// Makes one call by that user.
    fn call(&mut self, caller: &UserName, call: &Call) -> Reply
        ensures { (state : Self.State) → Self.tells self.old state
            → (next : Self.State) × Self.tells self.new next
            × Self.makes state caller.now call.now result next };

    /// The call that is due now.
    fn due_now(&self) -> Result<Option<UserCall>, Memory>
        ensures { IfOk result (λ r. (state : Self.State) → Self.tells self.now state
            → r ≡ due state) };
}
