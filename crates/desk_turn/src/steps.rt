// The steps at the table. Each is one step on a word, or reads and writes the slot that the seat holds.
ghost use Rattle.std.specs.Prelude.{◌≡◌, ◌≢◌, ◌<◌, ◌≤◌, ◌^◌, [], ◌∷◌, ◌++◌, false, Some, None};
ghost use Rattle.atomic_table.specs.Table.{rest};
ghost use Rattle.desk_turn.specs.Views.{receipt_view, splitter, newcomer, joiner, ticketed, leaving};
ghost use Rattle.desk_turn.specs.Plays.{Takes, EntersBy, Holds, IsSettled};
ghost use Rattle.desk_turn.specs.Resting.{Rests};

use crate::kept::Kept;
use crate::plays::{Draw, Enter, Gather, Leave, Look, Name, Note, Part, Settle};
use crate::rule::SeatOf;
use crate::turn::Turn;
use std::sync::Wait;

// How many calls went over to the pass that was split off last. It is for the seat that splits.
const GIVEN: usize = 0;

// How many tickets were drawn.
const DRAWN: usize = 1;

// The ticket whose turn it is.
const TURN: usize = 2;

// How many calls were entered.
const ENTERED: usize = 3;

impl<V: Kept> Turn<V> {
    pub(crate) fn draw(&self, seat: &mut SeatOf<V>) -> u64
        requires table { seat.old.table_id ≡ self.now.table.shared.table_id }
        requires rests { Rests seat.old.me.0 × (0 < seat.old.me.0.left) }
        ensures same { (seat.new.table_id ≡ seat.old.table_id) × (seat.new.id ≡ seat.old.id) }
        ensures drawn { seat.new.me ≡ (ticketed seat.old.me.0 result, seat.old.me.1) }
    {
        self.table.shared.fetch_add::<Draw>(seat, DRAWN, 1)
    }

    fn look(&self, seat: &mut SeatOf<V>) -> u64
        // The seat is at this turn's table, may make calls, and doesn't hold the value.
        requires table { seat.old.table_id ≡ self.now.table.shared.table_id }
        requires waits { (0 < seat.old.me.0.parts) × (seat.old.me.0.holds ≡ false) }
        // It stays the same seat. Where the number is its ticket it holds the value, and else
        // nothing happens to it.
        ensures same { (seat.new.table_id ≡ seat.old.table_id) × (seat.new.id ≡ seat.old.id) }
        ensures turn { seat.old.me.0.ticket ≡ Some result
            → Takes V.history V.origin seat.old.me seat.new.me }
        ensures wait { seat.old.me.0.ticket ≢ Some result → seat.new.me ≡ seat.old.me }
        ensures below { result < 2 ^ 32 }
    {
        self.table.shared.load::<Look<V>>(seat, TURN)
    }

    // Sleeps until it is the ticket's turn. The slot is the seat's from then on.
    pub(crate) fn await_turn<R: Wait>(&self, rt: &R, seat: &mut SeatOf<V>, ticket: u64)
        requires table { seat.old.table_id ≡ self.now.table.shared.table_id }
        requires waits { (0 < seat.old.me.0.parts) × (seat.old.me.0.holds ≡ false) }
        requires ticket { seat.old.me.0.ticket ≡ Some ticket }
        ensures same { (seat.new.table_id ≡ seat.old.table_id) × (seat.new.id ≡ seat.old.id) }
        ensures turn { Takes V.history V.origin seat.old.me seat.new.me }
    {
        for _ in rt.forever() {
            let turn = self.look(seat);
            if turn == ticket {
                return;
            }
            self.table.shared.park(rt, TURN, turn as u32);
        }
        unreachable!()
    }

    pub(crate) fn take_value(&self, seat: &mut SeatOf<V>) -> V
        requires table { seat.old.table_id ≡ self.now.table.shared.table_id }
        requires held { (value : V) × (seat.old.me.1 ≡ (0, Some value) ∷ []) }
        ensures same { (seat.new.table_id ≡ seat.old.table_id) × (seat.new.id ≡ seat.old.id) }
        ensures taken { (seat.old.me.1 ≡ (0, Some result) ∷ [])
            × (seat.new.me ≡ (seat.old.me.0, (0, None) ∷ [])) }
    {
        let Some(value) = self.table.shared.exchange(seat, 0, None) else {
            unreachable!()
        };
        value
    }

    pub(crate) fn give_back(&self, seat: &mut SeatOf<V>, value: V)
        requires table { seat.old.table_id ≡ self.now.table.shared.table_id }
        requires empty { seat.old.me.1 ≡ (0, None) ∷ [] }
        ensures same { (seat.new.table_id ≡ seat.old.table_id) × (seat.new.id ≡ seat.old.id) }
        ensures put { seat.new.me ≡ (seat.old.me.0, (0, Some value) ∷ []) }
    {
        let vacant = self.table.shared.exchange(seat, 0, Some(value));
        let None = vacant else { unreachable!() };
    }

    // The value that the seat holds tells which call it was.
    pub(crate) fn enter_call(&self, seat: &mut SeatOf<V>)
        requires table { seat.old.table_id ≡ self.now.table.shared.table_id }
        requires entered { (value : V) × (e : _) × Holds V.history V.origin seat.old.me value
            × (V.history value ≡ seat.old.me.0.held ++ e ∷ []) × (e.by ≡ seat.old.me.0.caller)
            × (seat.old.me.0.fresh ≡ 1) }
        ensures same { (seat.new.table_id ≡ seat.old.table_id) × (seat.new.id ≡ seat.old.id) }
        ensures entered { EntersBy V.history V.origin seat.old.me seat.new.me }
    {
        self.table.shared.fetch_add::<Enter<V>>(seat, ENTERED, 1);
    }

    pub(crate) fn pass_on(&self, seat: &mut SeatOf<V>)
        requires table { seat.old.table_id ≡ self.now.table.shared.table_id }
        requires whole { (value : V) × Holds V.history V.origin seat.old.me value
            × (V.history value ≡ seat.old.me.0.held) }
        ensures same { (seat.new.table_id ≡ seat.old.table_id) × (seat.new.id ≡ seat.old.id) }
        ensures left { seat.new.me ≡ (leaving seat.old.me.0, rest seat.old.me.1) }
    {
        let turn = self.table.shared.fetch_add::<Leave>(seat, TURN, 1);
        // Each ticket before this one has had its turn, so nobody waits where none was drawn behind it. Whoever draws one after this
        // look at the tickets finds the turn passed on, and doesn't sleep on the old one.
        if self.table.shared.peek(DRAWN) != turn.wrapping_add(1) {
            self.table.shared.wake_all(TURN);
        }
    }

    pub(crate) fn name_calls(&self, seat: &mut SeatOf<V>, part: u32)
        requires table { seat.old.table_id ≡ self.now.table.shared.table_id }
        ensures same { (seat.new.table_id ≡ seat.old.table_id) × (seat.new.id ≡ seat.old.id) }
        ensures named { seat.new.me ≡ (record seat.old.me.0 { named = part }, seat.old.me.1) }
    {
        self.table.shared.store::<Name>(seat, GIVEN, part as u64);
    }

    pub(crate) fn cut(&self, seat: &mut SeatOf<V>) -> SeatOf<V>
        requires table { seat.old.table_id ≡ self.now.table.shared.table_id }
        requires first { Rests seat.old.me.0 × (seat.old.me.0.caller ≡ 0) }
        requires room { (1 < seat.old.me.0.parts) × (seat.old.me.0.named ≤ seat.old.me.0.left) }
        ensures same { (seat.new.table_id ≡ seat.old.table_id) × (seat.new.id ≡ seat.old.id)
            × (result.table_id ≡ seat.old.table_id) }
        ensures cut { (seat.new.me ≡ (splitter seat.old.me.0, seat.old.me.1))
            × (result.me ≡ (newcomer seat.old.me.0, [])) }
    {
        self.table.shared.split_seat::<Part>(seat)
    }

    pub(crate) fn note(&self, seat: &mut SeatOf<V>) -> SeatOf<V>
        requires table { seat.old.table_id ≡ self.now.table.shared.table_id }
        ensures same { (seat.new.table_id ≡ seat.old.table_id) × (seat.new.id ≡ seat.old.id)
            × (result.table_id ≡ seat.old.table_id) }
        ensures noted { (seat.new.me ≡ seat.old.me)
            × (result.me ≡ (receipt_view seat.old.me.0, [])) }
    {
        self.table.shared.split_seat::<Note>(seat)
    }

    pub(crate) fn gather(&self, seat: &mut SeatOf<V>, other: SeatOf<V>)
        requires table { (seat.old.table_id ≡ self.now.table.shared.table_id)
            × (other.table_id ≡ self.now.table.shared.table_id) }
        requires first { Rests seat.old.me.0 × (seat.old.me.0.caller ≡ 0) }
        requires other { Rests other.me.0 × (other.me.0.joined ≡ []) × (other.me.1 ≡ []) }
        ensures same { (seat.new.table_id ≡ seat.old.table_id) × (seat.new.id ≡ seat.old.id) }
        ensures both { seat.new.me ≡ (joiner seat.old.me.0 other.me.0, seat.old.me.1) }
    {
        self.table.shared.join_seat::<Gather>(seat, other);
    }

    // Sees the history so far.
    pub(crate) fn settle(&self, seat: &mut SeatOf<V>)
        requires table { seat.old.table_id ≡ self.now.table.shared.table_id }
        requires live { 0 < seat.old.me.0.parts }
        ensures same { (seat.new.table_id ≡ seat.old.table_id) × (seat.new.id ≡ seat.old.id) }
        ensures settled { IsSettled seat.old.me seat.new.me }
    {
        self.table.shared.load::<Settle>(seat, GIVEN);
    }
}
