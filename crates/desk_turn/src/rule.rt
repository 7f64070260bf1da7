ghost use Rattle.desk_turn.specs.Rule.{Keeps};
ghost use Rattle.desk_turn.specs.Views.{opening_view};

use crate::kept::Kept;
use crate::view::View;
use atomic_table::{Seat, Table, TableRule};
use std::alloc::Global;
use std::marker::PhantomData;
use std::snapshot::Snapshot;

/// What the table is told when it is made: how many calls may be made at most, and the value.
#[derive(Drop)]
pub struct Start<V> {
    pub most: u32,
    pub value: Snapshot<V>,
}

/// The rule that holds of the words, the slot and all views between any two steps.
pub struct TurnRule<V: Kept> {
    of: PhantomData<V>,
}

/// What a seat of a turn over `V` knows.
pub type ViewOf<V> = View<<V as Kept>::Ask, <V as Kept>::Told, <V as Kept>::Origin>;

/// A seat of a turn over `V`.
pub type SeatOf<V> = Seat<Option<V>, ViewOf<V>>;

/// The table of a turn over `V`: four words, and one slot for the value.
pub type TableOf<V> = Table<Option<V>, ViewOf<V>, Start<V>, TurnRule<V>, Global>;

impl<V: Kept> TableRule<Option<V>, ViewOf<V>, Start<V>> for TurnRule<V> {
    ghost holds = { λ key. Keeps V.history V.origin key.most (V.origin key.value.value) };

    ghost first = { λ key. opening_view key.most (V.origin key.value.value) };
}
