// What makes calls.
ghost use Rattle.std.specs.Prelude.{List, ℕ};
ghost use Rattle.tracker_calls.specs.declared.call.Call.{Call};
ghost use Rattle.tracker_calls.specs.declared.reply.Reply.{Reply};

use tracker_calls::{Call, Reply, UserName};

/// What makes calls, one at a time, as a desk does.
pub trait Maker {
    /// Its states.
    ghost State: { Type 0 };

    /// This is its state, so far as it tells it.
    ghost tells: { Self → Self.State → Type 0 };

    /// In this state, the call of that user may have that reply, and lead to that state.
    ghost makes: { Self.State → List ℕ → Call → Reply → Self.State → Type 0 };

    /// Makes one call by that user.
    fn call(&mut self, caller: &UserName, call: &Call) -> Reply
        ensures { (state : Self.State) → Self.tells self.old state
            → (next : Self.State) × Self.tells self.new next
            × Self.makes state caller.now call.now result next };
}
