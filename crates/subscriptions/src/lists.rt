//! What the filters of a tracker list, as subscriptions ask for it.
ghost use Rattle.filter_lists.specs.Listed.{listed};

use field_values::{FilterNo, Memory, UserNo};
use filter_lists::{list, lists_at};
use move_feeds::Lister;
use tracker_state::State;

/// The lists of a state.
#[derive(Clone, Copy)]
pub struct StateLists<'s> {
    pub state: &'s State,
}

impl Lister for StateLists<'_> {
    ghost use Rattle.filter_lists.specs.Listed.{listed};

    ghost lists = { λ l. listed l.state.now.machine };

    fn list(&self, user: UserNo, filter: FilterNo, room: &mut Vec<bool>) -> Result<(), Memory> {
        list(self.state, user, filter, room)
    }

    fn lists_at(&self, user: UserNo, filter: FilterNo, place: usize) -> bool {
        lists_at(self.state, user, filter, place)
    }
}
