//! The boards of a tracker.
ghost use Rattle.std.specs.Prelude.{◌≡◌, ◌≢◌, ◌<◌, [], None, length, vec_capacity, OnOk};
ghost use Rattle.std.specs.Option.{option_copied};
ghost use Rattle.rising_numbers.specs.ByNumber.{by_number, put_by_number, without_number, free_from};
ghost use Rattle.tracker_limits.specs.Limits.{most_boards};
ghost use Rattle.tracker_boards.specs.Boards.{number, AreBoards, HasBoardRoom, without_boards_of};

use board::Board;
use field_values::{BoardNo, FilterNo, Memory};
use rising_numbers::{find, free_number, put_in, take_out};
use std::alloc::Global;
use std::marker::Model;

/// The boards by number. A number that is let go is given again.
///
/// Contracts see the list, and beside it how many boards may stand without more memory.
#[derive(Drop)]
pub struct Boards {
    list: Vec<Board>,
}

impl Model for Boards {
    ghost use Rattle.std.specs.Prelude.{vec_capacity};
    ghost use Rattle.tracker_boards.specs.Boards.{BoardList, AreBoards};

    ghost Value = { BoardList };

    ghost view = { λ b. record { boards = b.list.items; room = vec_capacity b.list } };

    ghost invariant = { λ b. AreBoards b.list.items };
}

impl Boards {
    /// No board.
    pub fn new(alloc: Global) -> Boards
        ensures { result ≡ record { boards = []; room = 0 } }
    {
        Boards {
            list: Vec::new(alloc),
        }
    }

    /// The boards by number, lent.
    pub fn as_slice(&self) -> &[Board]
        ensures boards { result.now ≡ self.now.boards }
        ensures are_boards { AreBoards self.now.boards }
    {
        self.list.as_slice()
    }

    /// How many boards there are.
    pub fn len(&self) -> usize
        ensures { result ≡ length self.now.boards }
    {
        self.list.len()
    }

    /// The board of that number; `None` exactly where there is none.
    pub fn get(&self, no: BoardNo) -> Option<&Board>
        ensures { option_copied result ≡ by_number number no.0 self.now.boards }
    {
        find(&self.list, no.0)
    }

    /// The least number from 1 on that no board has.
    pub fn free_number(&self) -> BoardNo
        ensures { result.0 ≡ free_from number 1 self.now.boards }
    {
        BoardNo(free_number(&self.list))
    }

    /// Makes room for one board more, or leaves all but the room as it is.
    pub fn reserve(&mut self) -> Result<(), Memory>
        ensures room { OnOk result (HasBoardRoom self.new) }
        ensures same { self.new ≡ record self.old { room = self.new.room } }
    {
        self.list.reserve(1)?;
        Ok(())
    }

    /// Puts a new board in. It takes no memory.
    pub fn put(&mut self, board: Board)
        requires positive { 0 < board.no.0 }
        requires free { by_number number board.no.0 self.old.boards ≡ None }
        requires few { length self.old.boards < most_boards }
        requires room { HasBoardRoom self.old }
        ensures { self.new ≡ record self.old {
          boards = put_by_number number board self.old.boards;
        } }
    {
        put_in(&mut self.list, board);
    }

    /// Takes a board away. It takes no memory.
    pub fn remove(&mut self, no: BoardNo)
        requires { by_number number no.0 self.old.boards ≢ None }
        ensures { self.new ≡ record self.old {
          boards = without_number number no.0 self.old.boards;
        } }
    {
        take_out(&mut self.list, no.0);
    }

    /// Takes the boards of a filter away. It takes no memory.
    pub fn remove_of(&mut self, filter: FilterNo)
        ensures { self.new ≡ record self.old {
          boards = without_boards_of filter.0 self.old.boards;
        } }
    {
        retain_others(&mut self.list, filter);
    }
}

// Lets the boards of the filter go.
fn retain_others(boards: &mut Vec<Board>, filter: FilterNo)
    ensures items { boards.new.items ≡ without_boards_of filter.0 boards.old.items }
    ensures capacity { vec_capacity boards.new ≡ vec_capacity boards.old }
{
    boards.retain(|board| board.filter.0 != filter.0);
}
