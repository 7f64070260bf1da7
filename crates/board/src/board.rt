//! A board: a saved filter's issues in the order of ranks.
ghost use Rattle.std.specs.Prelude.{◌≡◌, OnOk, OnErr};
ghost use Rattle.board.specs.Board.{AreRows};

use crate::order::Order;
use field_values::{BoardNo, FilterNo, IssueNo, Memory, Text};
use rising_numbers::Numbered;

/// A board shows the issues of a saved filter.
#[derive(Drop)]
pub struct Board {
    pub no: BoardNo,
    pub name: Text,
    pub filter: FilterNo,
}

impl Numbered for Board {
    ghost number = { λ b. b.no.0 };

    fn number(&self) -> u32 {
        self.no.0
    }
}

impl Board {
    /// Puts the members that stand in the order, by their places there, in place of what is in `room`, or leaves it as it is.
    pub fn rows(
        &self,
        order: &Order,
        members: &[IssueNo],
        room: &mut Vec<IssueNo>,
    ) -> Result<(), Memory>
        ensures ok { OnOk result (AreRows order.now.pairs members.now room.new.items) }
        ensures err { OnErr result (room.new.items ≡ room.old.items) }
    {
        room.reserve(members.len())?;
        room.clear();
        for issue in members {
            if order.place_of(*issue).is_some() {
                room.push_reserved(*issue);
            }
        }
        room.sort_unstable_by(|one, other| order.compare(*one, *other));
        Ok(())
    }
}
