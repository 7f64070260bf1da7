// The checks of filters and boards, each of which may refuse a call.
ghost use Rattle.std.specs.Prelude.{◌≡◌, option_map, IfOk, IfSome, Some};
ghost use Rattle.std.specs.Option.{option_copied};
ghost use Rattle.rising_numbers.specs.ByNumber.{by_number};
ghost use Rattle.tracker_filters.specs.Saved.{number};
ghost use Rattle.tracker_machine.specs.Filters.{filter_numbered, unless_filter};
ghost use Rattle.tracker_machine.specs.Boards.{board_numbered, unless_board};
ghost use Rattle.tracker_state.specs.Check.{Checks};
ghost use Rattle.tracker_state.specs.State.{saved_as};

use board::Board;
use fields::{BoardNo, FilterNo};
use std::alloc::Global;
use tracker_calls::{Refusal, Thing};
use tracker_filters::Filter;
use tracker_state::{State, unnumbered};

/// The filter of that number; `None` exactly where there is none.
pub fn filter_numbered(state: &State, no: FilterNo) -> Option<&Filter>
    ensures filter { option_copied result ≡ by_number number no.0 state.now.watched.filters }
    ensures own { IfSome result (λ filter. filter.now.no ≡ no) }
    ensures named { option_map saved_as (option_copied result)
        ≡ filter_numbered state.now.machine no }
{
    state.have_seen();
    state.filters().get(no)
}

/// The filter of that number.
pub fn known_filter(alloc: Global, state: &State, no: FilterNo) -> Result<&Filter, Refusal>
    ensures filter { IfOk result (λ filter. by_number number no.0 state.now.watched.filters
        ≡ Some filter.now) }
    ensures own { IfOk result (λ filter. filter.now.no ≡ no) }
    ensures named { IfOk result (λ filter. filter_numbered state.now.machine no
        ≡ Some (saved_as filter.now)) }
    ensures check { Checks (unless_filter state.now.machine no) result }
{
    match filter_numbered(state, no) {
        Some(filter) => Ok(filter),
        None => Err(unnumbered(alloc, Thing::Filter, no.0)),
    }
}

/// The board of that number.
pub fn known_board(alloc: Global, state: &State, no: BoardNo) -> Result<&Board, Refusal>
    ensures board { IfOk result (λ board. board_numbered state.now.machine no ≡ Some board.now) }
    ensures check { Checks (unless_board state.now.machine no) result }
{
    match state.boards().get(no) {
        Some(board) => Ok(board),
        None => Err(unnumbered(alloc, Thing::Board, no.0)),
    }
}
