ghost use Rattle.std.specs.Prelude.{◌≡◌, ◌≤◌, ◌+◌, ◌-◌, [], IfOk, IsOk};

use crate::kept::{Kept, Memory};
use crate::pass::Pass;
use crate::turn::Turn;

impl<V: Kept> Turn<V> {
    ghost use Rattle.desk_turn.specs.Passes.{IsPassOf, caller_of, left_of, made_of, out_of, seen, own, lists};

    /// Splits a pass from the first one, with the next caller number. `part` of the calls that
    /// the first pass may still make go over to it.
    ///
    /// The answer leaves room for want of memory, but nothing is taken, and it always succeeds.
    pub fn split(&self, first: &mut Pass<V>, part: u32) -> Result<Pass<V>, Memory>
        // The pass is the first one of this turn, and has so many calls to give.
        requires turn { IsPassOf self.now first.old }
        requires first { (caller_of first.old ≡ 0) × (1 ≤ part) × (part ≤ left_of first.old) }
        // There is always a new pass. It has the next number and these calls, and has seen as much
        // but made no call.
        ensures succeeds { IsOk result }
        ensures turn { IsPassOf self.now first.new × IfOk result (IsPassOf self.now) }
        ensures new { IfOk result (λ pass. (caller_of pass ≡ made_of first.old + 1)
            × (left_of pass ≡ part)) }
        ensures knows { IfOk result (λ pass. (seen pass ≡ seen first.old) × (own pass ≡ [])
            × (lists pass ≡ [])) }
        // The first pass has given these calls away, counts one pass more, and is else as before.
        ensures gave { (left_of first.new ≡ left_of first.old - part)
            × (made_of first.new ≡ made_of first.old + 1)
            × (out_of first.new ≡ out_of first.old + 1) }
        ensures stands { (caller_of first.new ≡ 0) × (seen first.new ≡ seen first.old)
            × (own first.new ≡ own first.old) × (lists first.new ≡ lists first.old) }
    {
        self.name_calls(&mut first.seat, part);
        let seat = self.cut(&mut first.seat);
        first.left -= part;
        first.made += 1;
        first.out += 1;
        let caller = first.made;
        Ok(Pass {
            seat,
            caller,
            left: part,
            made: 0,
            out: 0,
            calls: 0,
        })
    }
}
