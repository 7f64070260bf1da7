// Boards by their numbers. Values are worked out by hand.
ghost use Rattle.std.specs.Prelude.{◌≡◌, ◌≢◌, false, IsTrue, None};
ghost use Rattle.rising_numbers.specs.ByNumber.{by_number};
ghost use Rattle.tracker_boards.specs.Boards.{number};

use super::placing::is;
use board::Board;
use field_values::{BoardNo, FilterNo, Text};
use std::alloc::Global;
use tracker_boards::Boards;

/// Makes a board of the filter, with the least number that is free.
fn make(alloc: Global, boards: &mut Boards, name: &str, filter: u32) -> Option<BoardNo> {
    let name = Text::copy_of(alloc, name).ok()?;
    boards.reserve().ok()?;
    let no = boards.free_number();
    if no.0 == 0 || boards.len() >= 200 {
        return None;
    }
    if is_there(boards, no) {
        return None;
    }
    let filter = FilterNo(filter);
    boards.put(Board { no, name, filter });
    Some(no)
}

fn is_there(boards: &Boards, no: BoardNo) -> bool
    ensures there { IsTrue result → by_number number no.0 boards.now.boards ≢ None }
    ensures free { result ≡ false → by_number number no.0 boards.now.boards ≡ None }
{
    boards.get(no).is_some()
}

/// Takes the board of that number away. `None` where it isn't there.
fn remove(boards: &mut Boards, no: u32) -> Option<()> {
    let no = BoardNo(no);
    if !is_there(boards, no) {
        return None;
    }
    boards.remove(no);
    Some(())
}

/// Whether the boards are these, by number and name.
fn are(boards: &Boards, rows: &[(u32, &str)]) -> bool {
    let list = boards.as_slice();
    if list.len() != rows.len() {
        return false;
    }
    for place in 0..rows.len() {
        let row = rows[place];
        if list[place].no.0 != row.0 || list[place].name.as_str() != row.1 {
            return false;
        }
    }
    true
}

fn make_three(alloc: Global, boards: &mut Boards) -> Option<()> {
    is(make(alloc, boards, "Day", 7)? == BoardNo(1))?;
    is(make(alloc, boards, "Week", 9)? == BoardNo(2))?;
    is(make(alloc, boards, "Month", 7)? == BoardNo(3))?;
    is(are(boards, &[(1, "Day"), (2, "Week"), (3, "Month")]))
}

/// The first board goes, and its number is given again.
fn make_again(alloc: Global, boards: &mut Boards) -> Option<()> {
    remove(boards, 1)?;
    is(are(boards, &[(2, "Week"), (3, "Month")]))?;
    is(make(alloc, boards, "Year", 9)? == BoardNo(1))?;
    is(are(boards, &[(1, "Year"), (2, "Week"), (3, "Month")]))
}

#[test]
fn numbers_of_boards_are_given_again(rt: HostRuntime) {
    let mut boards = Boards::new(rt.alloc());
    let passes = make_three(rt.alloc(), &mut boards).is_some()
        && make_again(rt.alloc(), &mut boards).is_some();
    assert!(rt; passes);
}

#[test]
fn boards_go_with_their_filter(rt: HostRuntime) {
    let mut boards = Boards::new(rt.alloc());
    let is_made = make_three(rt.alloc(), &mut boards).is_some();
    boards.remove_of(FilterNo(7));
    let passes = is_made && are(&boards, &[(2, "Week")]) && boards.len() == 1;
    assert!(rt; passes);
}
