ghost use Rattle.std.specs.Prelude.{◌≡◌, ◌<◌, ◌+◌, [], ◌∷◌, ◌++◌};

use crate::kept::Kept;
use crate::pass::Pass;
use crate::receipt::Receipt;
use crate::turn::Turn;

impl<V: Kept> Turn<V> {
    ghost use Rattle.desk_turn.specs.History.{StartsWith};
    ghost use Rattle.desk_turn.specs.Passes.{IsPassOf, caller_of, left_of, made_of, out_of, seen, own, lists, listed};

    /// Ends a pass that was split from the first one, and gives the receipt of its calls. The
    /// first pass keeps their list under the other's number. Calls that the other one could
    /// still have made are lost.
    pub fn join(&self, first: &mut Pass<V>, other: Pass<V>) -> Receipt<V>
        // Both are passes of this turn, the first one and another.
        requires turn { IsPassOf self.now first.old × IsPassOf self.now other }
        requires numbers { (caller_of first.old ≡ 0) × (0 < caller_of other) }
        // The first pass has seen now what either had seen, as one history.
        ensures turn { IsPassOf self.now first.new }
        ensures seen { StartsWith (seen first.new) (seen first.old)
            × StartsWith (seen first.new) (seen other) }
        // The calls of the other pass are on the receipt, and the first pass keeps them for its
        // account of the whole history.
        ensures receipt { listed result ≡ own other }
        ensures lists { lists first.new ≡ lists first.old ++ (caller_of other, own other) ∷ [] }
        // One pass less is out, and nothing else of the first one changes.
        ensures out { out_of first.old ≡ out_of first.new + 1 }
        ensures stands { (caller_of first.new ≡ 0) × (left_of first.new ≡ left_of first.old)
            × (made_of first.new ≡ made_of first.old) × (own first.new ≡ own first.old) }
    {
        let Pass {
            mut seat,
            caller: _,
            left: _,
            made: _,
            out: _,
            calls,
        } = other;
        let noted = self.note(&mut seat);
        self.gather(&mut first.seat, seat);
        self.settle(&mut first.seat);
        first.out -= 1;
        Receipt { seat: noted, calls }
    }
}
