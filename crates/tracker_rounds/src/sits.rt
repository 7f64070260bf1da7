// Whoever sits in a round, as a teller sees it.
ghost use Rattle.std.specs.Prelude.{◌≡◌, ◌∷◌, ◌++◌, [], List, ℕ, OnErr};
ghost use Rattle.desk_turn.specs.Answer.{IfTold, IfNothing};
ghost use Rattle.desk_turn.specs.declared.entry.Entry.{Entry};
ghost use Rattle.tracker_rounds.specs.Seated.{Place};
ghost use Rattle.tracker_rounds.specs.declared.ask.Ask.{Ask};
ghost use Rattle.tracker_rounds.specs.declared.ask.Told.{Told};

use crate::ask::{Ask, Told};
use desk_turn::{Kept, Memory};
use std::sync::Wait;
use turn_workers::{Gate, Seat};

/// A place from which calls are asked for, each of them entered under its number or not made.
pub trait Sits {
    /// Of which turn it is, and its number.
    ghost place: { Self → Place };

    /// The calls that were asked for from it and entered.
    ghost own: { Self → List (Entry Ask Told) };

    /// Asks for one call.
    fn ask(&mut self, ask: &Ask) -> Result<Option<Told>, Memory>
        ensures place { place self.new ≡ place self.old }
        ensures told { IfTold result (λ told. own self.new ≡ own self.old
            ++ record { by = (place self.old).number; ask = ask.now; told = told } ∷ []) }
        ensures nothing { IfNothing result (own self.new ≡ own self.old) }
        ensures memory { OnErr result (own self.new ≡ own self.old) };
}

impl<'t, V: Kept<Ask = Ask, Told = Told>, R: Wait, G: Gate> Sits for Seat<'t, V, R, G> {
    ghost use Rattle.desk_turn.specs.Passes.{own};
    ghost use Rattle.tracker_rounds.specs.Seated.{place_of};

    ghost place = { λ s. place_of s.pass };

    ghost own = { λ s. own s.pass };

    fn ask(&mut self, ask: &Ask) -> Result<Option<Told>, Memory> {
        self.tell(ask)
    }
}
