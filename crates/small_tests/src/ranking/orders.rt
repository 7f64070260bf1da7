use super::placing::{
    MOST_ZEROS, answer_for, behind_zeros, is, is_exhausted, is_written, put, put_text, rank_for,
};
use board::{Board, Order, Place};
use field_values::{BoardNo, FilterNo, IssueNo, Text};
use std::alloc::Global;

const NEW: bool = true;

/// An issue that is new or moves, its place, and the rank that it gets.
const MOVES: [(u32, bool, Place, &str); 6] = [
    (1, NEW, Place::Last, "0|i00000:"),
    (2, NEW, Place::Last, "0|i006bk:"),
    (3, NEW, Place::Last, "0|i00cn4:"),
    (1, false, Place::After(IssueNo(2)), "0|i009hc:"),
    (1, false, Place::Before(IssueNo(3)), "0|i009hc:"),
    (3, false, Place::Before(IssueNo(2)), "0|i00000:"),
];

/// Makes a move, which gives the issue that rank.
fn moves(
    alloc: Global,
    order: &mut Order,
    issue: IssueNo,
    is_new: bool,
    place: Place,
    want: &str,
) -> Option<()> {
    let asked = if is_new { None } else { Some(issue) };
    let rank = rank_for(order, asked, place, 0)?;
    is(is_written(alloc, &rank, want))?;
    put(order, issue, rank)
}

/// Makes these moves, after which the issues stand as 3, 2 and 1.
fn make_moves(alloc: Global, order: &mut Order) -> Option<()> {
    for &(number, is_new, place, want) in &MOVES {
        moves(alloc, order, IssueNo(number), is_new, place, want)?;
    }
    Some(())
}

/// Whether an issue has that place.
fn stands(order: &Order, issue: u32, place: usize) -> bool {
    order.place_of(IssueNo(issue)) == Some(place)
}

fn stand_as_moved(order: &Order) -> bool {
    order.len() == 3
        && stands(order, 3, 0)
        && stands(order, 2, 1)
        && stands(order, 1, 2)
        && order.place_of(IssueNo(9)) == None
        && order.longest() == 9
}

#[test]
fn moves_as_in_the_rows(rt: HostRuntime) {
    let mut order = Order::empty(rt.alloc());
    let passes = make_moves(rt.alloc(), &mut order).is_some() && stand_as_moved(&order);
    assert!(rt; passes);
}

/// Issues, and the ones beside them.
const NEIGHBOURS: [(u32, Option<IssueNo>, Option<IssueNo>); 4] = [
    (3, None, Some(IssueNo(2))),
    (2, Some(IssueNo(3)), Some(IssueNo(1))),
    (1, Some(IssueNo(2)), None),
    (9, None, None),
];

fn knows_each_neighbour(order: &Order) -> bool {
    for &(number, above, below) in &NEIGHBOURS {
        if order.neighbours(IssueNo(number)) != (above, below) {
            return false;
        }
    }
    true
}

#[test]
fn knows_neighbours(rt: HostRuntime) {
    let mut order = Order::empty(rt.alloc());
    let passes = make_moves(rt.alloc(), &mut order).is_some() && knows_each_neighbour(&order);
    assert!(rt; passes);
}

/// A board's rows, where the buffer held another issue and the filter has one that is on no board.
fn shows_members(alloc: Global, order: &Order) -> Option<bool> {
    let board = Board {
        no: BoardNo(1),
        name: Text::copy_of(alloc, "team").ok()?,
        filter: FilterNo(1),
    };
    let mut rows = Vec::new(alloc);
    rows.push(IssueNo(7)).ok()?;
    let members = [IssueNo(1), IssueNo(3), IssueNo(9)];
    board.rows(order, &members, &mut rows).ok()?;
    Some(rows.as_slice() == [IssueNo(3), IssueNo(1)].as_slice())
}

#[test]
fn shows_members_in_rank_order(rt: HostRuntime) {
    let alloc = rt.alloc();
    let mut order = Order::empty(alloc);
    let passes = make_moves(alloc, &mut order).is_some()
        && shows_members(alloc, &order) == Some(true);
    assert!(rt; passes);
}

/// An order in which the longest rank stands right behind another one.
fn has_no_room(alloc: Global, order: &mut Order) -> Option<bool> {
    let longest = behind_zeros(alloc, MOST_ZEROS).ok()?;
    put_text(alloc, order, 1, "0|i00000:")?;
    put_text(alloc, order, 2, longest.as_str())?;
    put_text(alloc, order, 3, "0|i006bk:")?;
    is(order.longest() == 254)?;
    let answer = answer_for(order, Some(IssueNo(3)), Place::After(IssueNo(1)), 0)?;
    Some(is_exhausted(alloc, &answer, "0|i00000:", longest.as_str()))
}

/// The longest rank goes from an order that then knows another one.
fn forgets_it(alloc: Global, order: &mut Order) -> Option<bool> {
    put_text(alloc, order, 2, "0|i00cn4:0i")?;
    Some(order.longest() == 11)
}

#[test]
fn has_no_room_beside_the_longest_rank(rt: HostRuntime) {
    let alloc = rt.alloc();
    let mut order = Order::empty(alloc);
    let passes = has_no_room(alloc, &mut order) == Some(true)
        && forgets_it(alloc, &mut order) == Some(true);
    assert!(rt; passes);
}

/// The ranks of two issues, and that of a new one between them.
const BUCKETS: [(&str, &str, &str); 5] = [
    ("0|i00000:", "0|i006bk:", "0|i0035s:"),
    ("0|i00000:", "1|i00000:", "1|hzztog:"),
    ("1|i00000:", "2|i00000:", "2|hzztog:"),
    ("0|i00000:", "2|i00000:", "0|i006bk:"),
    ("1|i00000:", "1|i00001:", "1|i00000:i"),
];

fn goes_between(alloc: Global, low: &str, high: &str, want: &str) -> Option<bool> {
    let mut order = Order::empty(alloc);
    put_text(alloc, &mut order, 1, low)?;
    put_text(alloc, &mut order, 2, high)?;
    let rank = rank_for(&order, None, Place::Before(IssueNo(2)), 0)?;
    Some(is_written(alloc, &rank, want))
}

/// The first issue of all goes to the bucket that is named.
fn goes_first(alloc: Global) -> Option<bool> {
    let rank = rank_for(&Order::empty(alloc), None, Place::Last, 2)?;
    Some(is_written(alloc, &rank, "2|i00000:"))
}

fn go_between(alloc: Global) -> bool {
    for &(low, high, want) in &BUCKETS {
        if goes_between(alloc, low, high, want) != Some(true) {
            return false;
        }
    }
    true
}

#[test]
fn goes_to_the_bucket_of_its_neighbours(rt: HostRuntime) {
    let passes = go_between(rt.alloc()) && goes_first(rt.alloc()) == Some(true);
    assert!(rt; passes);
}
