ghost use Rattle.std.specs.Prelude.{◌≡◌, ◌<◌, ◌-◌, true, OnErr};
ghost use Rattle.desk_turn.specs.Answer.{IfTold, IfNothing};
ghost use Rattle.desk_turn.specs.History.{IsEntered};
ghost use Rattle.desk_turn.specs.Passes.{IsPassOf, caller_of, seen, own};

use crate::bell::Bell;
use crate::gate::Gate;
use crate::wakes::Wakes;
use desk_turn::{Kept, Memory, Pass, Turn};
use std::sync::Wait;

/// A pass, with all that its calls need.
#[derive(Drop)]
pub struct Seat<'t, V: Kept, R: Wait, G: Gate> {
    rt: &'t R,
    turn: &'t Turn<V>,
    bell: &'t Bell,
    gate: &'t G,
    pass: Pass<V>,
    calls: u64,
    ghost sits: { IsPassOf turn.now pass },
}

impl<'t, V: Kept, R: Wait, G: Gate> Seat<'t, V, R, G> {
    pub(crate) fn new(
        rt: &'t R,
        turn: &'t Turn<V>,
        bell: &'t Bell,
        gate: &'t G,
        pass: Pass<V>,
    ) -> Self
        requires { IsPassOf turn.now pass }
        ensures { result.pass ≡ pass }
    {
        Seat {
            rt,
            turn,
            bell,
            gate,
            pass,
            calls: 0,
        }
    }

    /// The worker's number, which is one less than its caller number.
    pub fn worker(&self) -> u32
        ensures { result ≡ caller_of self.now.pass - 1 }
    {
        self.pass.caller().saturating_sub(1)
    }

    /// Passes the gate, makes one call, and rings the bell where the answer wakes whoever looks. Where the pass may make no more, the
    /// answer is that memory lacked.
    pub fn tell(&mut self, ask: &V::Ask) -> Result<Option<V::Told>, Memory>
    where
        V::Told: Wakes,
        ensures turn { IsPassOf self.old.turn.now self.new.pass }
        ensures number { caller_of self.new.pass ≡ caller_of self.old.pass }
        ensures told { IfTold result (λ told. IsEntered
            (record { by = caller_of self.old.pass; ask = ask.now; told = told })
            (seen self.old.pass) (own self.old.pass) (seen self.new.pass) (own self.new.pass)) }
        ensures look { IfNothing result (V.is_look ask.now ≡ true) }
        ensures nothing { IfNothing result (own self.new.pass ≡ own self.old.pass) }
        ensures memory { OnErr result (own self.new.pass ≡ own self.old.pass) }
    {
        if self.pass.left() == 0 {
            return Err(Memory);
        }
        self.calls = self.calls.saturating_add(1);
        self.gate.pass(self.worker(), self.calls);
        match self.turn.tell(self.rt, &mut self.pass, ask) {
            Ok(Some(told)) => {
                if told.wakes() {
                    self.bell.ring(self.rt);
                }
                Ok(Some(told))
            }
            Ok(None) => Ok(None),
            Err(memory) => Err(memory),
        }
    }

    // The worker has ended.
    pub(crate) fn leave(&self) {
        self.bell.leave(self.rt);
    }

    pub(crate) fn into_pass(self) -> Pass<V>
        ensures pass { result ≡ self.entry.pass }
        ensures turn { IsPassOf self.entry.turn.now result }
    {
        let Seat {
            rt: _,
            turn: _,
            bell: _,
            gate: _,
            pass,
            calls: _,
        } = self;
        pass
    }
}
