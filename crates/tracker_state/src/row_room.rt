// Room for the operations that keep what a call makes, from call to call, so that most calls take no memory for their list.
ghost use Rattle.std.specs.Prelude.{◌≡◌};

use crate::state::State;
use std::alloc::Global;
use tracker_keeper::RowOp;

// A list with room for more is let go, so that one large call doesn't keep its memory.
const MOST_KEPT: usize = 16;

impl State {
    /// A list whose room is free: that of an earlier call's operations, if there is one.
    pub fn take_row_room(&mut self, alloc: Global) -> Vec<RowOp>
        ensures { self.new ≡ self.old }
    {
        match self.row_room.take() {
            Some(room) => room,
            None => Vec::new(alloc),
        }
    }

    /// Lets operations go, which were carried out, and keeps their list for its room.
    pub fn keep_row_room(&mut self, ops: Vec<RowOp>)
        ensures { self.new ≡ self.old }
    {
        let mut room = ops;
        room.clear();
        if room.capacity() <= MOST_KEPT {
            self.row_room = Some(room);
        }
    }
}
