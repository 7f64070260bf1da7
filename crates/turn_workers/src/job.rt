ghost use Rattle.std.specs.Prelude.{◌≡◌, ℕ, List, []};
ghost use Rattle.desk_turn.specs.declared.entry.Entry.{Entry};
ghost use Rattle.desk_turn.specs.Passes.{IsPassOf, caller_of, own};

use crate::gate::Gate;
use crate::seat::Seat;
use desk_turn::Kept;
use std::sync::Wait;

/// What a worker does in its seat.
pub trait Job<V: Kept, R: Wait, G: Gate> {
    /// What is true of the calls of one worker, by its caller number.
    ghost makes: { Self → ℕ → List (Entry V.Ask V.Told) → Type 0 };

    /// Makes calls, as many as it likes.
    fn work(&self, seat: &mut Seat<'_, V, R, G>)
        requires { own seat.old.pass ≡ [] }
        ensures turn { IsPassOf seat.old.turn.now seat.new.pass }
        ensures number { caller_of seat.new.pass ≡ caller_of seat.old.pass }
        ensures makes { makes self.now (caller_of seat.new.pass) (own seat.new.pass) };
}
