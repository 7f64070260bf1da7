ghost use Rattle.std.specs.Prelude.{◌≡◌, ◌<◌, ◌-◌, true, [], OnErr};
ghost use Rattle.desk_turn.specs.Answer.{IfTold, IfNothing};
ghost use Rattle.desk_turn.specs.Plays.{Told};
ghost use Rattle.desk_turn.specs.Resting.{Rests};
ghost use Rattle.desk_turn.specs.Views.{passed};

use crate::kept::{Kept, Memory};
use crate::pass::Pass;
use crate::rule::SeatOf;
use crate::turn::Turn;
use std::sync::Wait;

impl<V: Kept> Turn<V> {
    // Draws a ticket, waits for its turn, makes the call on the value, and passes the turn on.
    fn call<R: Wait>(
        &self,
        rt: &R,
        seat: &mut SeatOf<V>,
        caller: u32,
        ask: &V::Ask,
    ) -> Result<Option<V::Told>, Memory>
        // The seat is at this turn's table, rests there, and may make one call more.
        requires table { seat.old.table_id ≡ self.now.table.shared.table_id }
        requires rests { Rests seat.old.me.0 × (seat.old.me.1 ≡ []) }
        requires may { (seat.old.me.0.caller ≡ caller) × (0 < seat.old.me.0.left) }
        // It is the same seat, and carries nothing away.
        ensures same { (seat.new.table_id ≡ seat.old.table_id) × (seat.new.id ≡ seat.old.id)
            × (seat.new.me.1 ≡ []) }
        // A call that is answered stands last in the history, as the seat sees it.
        ensures told { IfTold result (λ told. Told
            seat.old.me.0 (record { by = caller; ask = ask.now; told = told }) seat.new.me.0) }
        // Where a look has nothing to tell, or memory is wanting, nothing is entered; the call is
        // used up all the same.
        ensures look { IfNothing result (V.is_look ask.now ≡ true) }
        ensures nothing { IfNothing result (seat.new.me.0 ≡ passed seat.old.me.0) }
        ensures memory { OnErr result (seat.new.me.0 ≡ passed seat.old.me.0) }
    {
        let ticket = self.draw(seat);
        self.await_turn(rt, seat, ticket);
        let mut value = self.take_value(seat);
        let answer = value.enter(caller, ask);
        self.give_back(seat, value);
        match answer {
            Ok(Some(told)) => {
                self.enter_call(seat);
                self.pass_on(seat);
                Ok(Some(told))
            }
            Ok(None) => {
                self.pass_on(seat);
                Ok(None)
            }
            Err(memory) => {
                self.pass_on(seat);
                Err(memory)
            }
        }
    }
}

impl<V: Kept> Turn<V> {
    ghost use Rattle.desk_turn.specs.History.{IsEntered};
    ghost use Rattle.desk_turn.specs.Passes.{IsPassOf, caller_of, left_of, made_of, out_of, seen, own, lists};

    /// Waits for the pass's turn and makes one call. The pass may make one call less then, whatever
    /// the answer is. `None` comes only for a look.
    ///
    /// Whether and when the turn comes is not promised.
    pub fn tell<R: Wait>(
        &self,
        rt: &R,
        pass: &mut Pass<V>,
        ask: &V::Ask,
    ) -> Result<Option<V::Told>, Memory>
        // The pass is one of this turn, and may make one call more.
        requires turn { IsPassOf self.now pass.old }
        requires may { 0 < left_of pass.old }
        // Whatever the answer is, that call is used up.
        ensures turn { IsPassOf self.now pass.new }
        ensures left { left_of pass.new ≡ left_of pass.old - 1 }
        // A call that is answered stands last in the history, as the pass sees it, and last among
        // its own.
        ensures told { IfTold result (λ told. IsEntered
            (record { by = caller_of pass.old; ask = ask.now; told = told })
            (seen pass.old) (own pass.old) (seen pass.new) (own pass.new)) }
        // Where a look has nothing to tell, or memory is wanting, nothing is entered.
        ensures look { IfNothing result (V.is_look ask.now ≡ true) }
        ensures nothing { IfNothing result
            ((seen pass.new ≡ seen pass.old) × (own pass.new ≡ own pass.old)) }
        ensures memory { OnErr result ((seen pass.new ≡ seen pass.old)
            × (own pass.new ≡ own pass.old)) }
        // Its number stays, and so does what it has of the passes that were split off.
        ensures stands { (caller_of pass.new ≡ caller_of pass.old)
            × (made_of pass.new ≡ made_of pass.old)
            × (out_of pass.new ≡ out_of pass.old) × (lists pass.new ≡ lists pass.old) }
    {
        let answer = self.call(rt, &mut pass.seat, pass.caller, ask);
        pass.left -= 1;
        match answer {
            Ok(Some(told)) => {
                pass.calls += 1;
                Ok(Some(told))
            }
            Ok(None) => Ok(None),
            Err(memory) => Err(memory),
        }
    }
}
