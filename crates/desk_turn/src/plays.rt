ghost use Rattle.desk_turn.specs.Views.{spent_view, receipt_view, splitter, newcomer, joiner};
ghost use Rattle.desk_turn.specs.Plays.{Names, Draws, Looks, Enters, Leaves, Settles};

use crate::kept::Kept;
use crate::rule::ViewOf;
use crate::view::View;
use atomic_table::{Join, Play, Split};
use std::marker::PhantomData;

/// The calls that go over to a new pass are named.
pub struct Name;

impl<S, A, T, O> Play<S, View<A, T, O>> for Name {
    ghost then = { Names };
}

/// The next ticket is drawn.
pub struct Draw;

impl<S, A, T, O> Play<S, View<A, T, O>> for Draw {
    ghost then = { Draws };
}

/// A look whose turn it is, which takes the value where it is the seat's.
pub struct Look<V: Kept> {
    of: PhantomData<V>,
}

impl<V: Kept> Play<Option<V>, ViewOf<V>> for Look<V> {
    ghost then = { Looks V.history V.origin };
}

/// A call is entered in the history.
pub struct Enter<V: Kept> {
    of: PhantomData<V>,
}

impl<V: Kept> Play<Option<V>, ViewOf<V>> for Enter<V> {
    ghost then = { Enters V.history V.origin };
}

/// The turn passes on, and the value is at home again.
pub struct Leave;

impl<S, A, T, O> Play<S, View<A, T, O>> for Leave {
    ghost then = { Leaves };
}

/// The history so far is seen.
pub struct Settle;

impl<S, A, T, O> Play<S, View<A, T, O>> for Settle {
    ghost then = { Settles };
}

/// A new pass is split off.
pub struct Part;

impl<A, T, O> Split<View<A, T, O>> for Part {
    ghost left = { splitter };

    ghost right = { newcomer };
}

/// A receipt of the calls that were entered is split off.
pub struct Note;

impl<A, T, O> Split<View<A, T, O>> for Note {
    ghost left = { λ v. v };

    ghost right = { receipt_view };
}

/// A pass is joined to the first one.
pub struct Gather;

impl<A, T, O> Join<View<A, T, O>> for Gather {
    ghost both = { joiner };

    ghost spent = { spent_view };
}
