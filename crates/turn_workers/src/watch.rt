ghost use Rattle.std.specs.Prelude.{◌≡◌, All};
ghost use Rattle.desk_turn.specs.Passes.{IsPassOf, caller_of, own};

use crate::bell::Bell;
use crate::gate::Gate;
use desk_turn::{Kept, Pass, Turn};
use std::sync::Wait;

/// The worker that looks after the value.
const WATCHER: u32 = 0;

// Looks until there is nothing more to find, or there was no memory, and says how many looks there were since the begin.
fn look_through<V: Kept, R: Wait, G: Gate>(
    rt: &R,
    turn: &Turn<V>,
    gate: &G,
    look: &V::Ask,
    pass: &mut Pass<V>,
    looked: u64,
) -> u64
where
    V::Told: Drop,
    requires turn { IsPassOf turn.now pass.old }
    requires looks { All (λ e. e.ask ≡ look.now) (own pass.old) }
    ensures turn { IsPassOf turn.now pass.new }
    ensures number { caller_of pass.new ≡ caller_of pass.old }
    ensures looks { All (λ e. e.ask ≡ look.now) (own pass.new) }
{
    let mut looks = looked;
    while pass.left() > 0 {
        looks = looks.saturating_add(1);
        gate.pass(WATCHER, looks);
        match turn.tell(rt, pass, look) {
            Ok(Some(_)) => {}
            Ok(None) | Err(_) => return looks,
        }
    }
    looks
}

// Sleeps until the workers have told something, then looks, until all of them have ended.
pub(crate) fn watch<V: Kept, R: Wait, G: Gate>(
    rt: &R,
    turn: &Turn<V>,
    bell: &Bell,
    gate: &G,
    look: &V::Ask,
    mut eye: Pass<V>,
) -> Pass<V>
where
    V::Told: Drop,
    requires turn { IsPassOf turn.now eye }
    requires looks { All (λ e. e.ask ≡ look.now) (own eye) }
    ensures turn { IsPassOf turn.now result }
    ensures number { caller_of result ≡ caller_of eye }
    ensures looks { All (λ e. e.ask ≡ look.now) (own result) }
{
    let mut told = 0;
    let mut looked = 0;
    for _ in rt.forever() {
        let heard = bell.wait_past(rt, told);
        looked = look_through(rt, turn, gate, look, &mut eye, looked);
        if heard.is_over {
            return eye;
        }
        told = heard.told;
    }
    unreachable!()
}
