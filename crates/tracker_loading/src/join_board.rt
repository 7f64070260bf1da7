//! A board that is read.
ghost use Rattle.std.specs.Prelude.{◌≡◌, ◌<◌, true, false, None, is_some, IfOk};
ghost use Rattle.rising_numbers.specs.ByNumber.{RiseFrom, by_number};
ghost use Rattle.tracker_filters.specs.Saved.{number};
ghost use Rattle.tracker_machine.specs.Effect.{with_board};
ghost use Rattle.tracker_machine.specs.Saved.{board_number};
ghost use Rattle.tracker_rows.specs.Rules.{MayBeBoard};

use crate::making::Making;
use board::Board;
use field_values::{FilterNo, Memory};
use rising_numbers::find;
use tracker_filters::Filter;
use tracker_limits::MOST_BOARDS;

impl Making {
    /// Adds a board whose number is free, or answers false exactly where it breaks a rule.
    pub(crate) fn join_board(&mut self, board: Board) -> Result<bool, Memory>
        requires positive { 0 < board.no.0 }
        requires free { by_number board_number board.no.0 self.old.boards ≡ None }
        ensures good { IfOk result (λ good. good ≡ true → MayBeBoard self.old board
            × (self.new ≡ with_board self.old board)) }
        ensures bad { IfOk result (λ good. good ≡ false → ¬ (MayBeBoard self.old board)) }
    {
        if self.boards.len() >= MOST_BOARDS {
            return Ok(false);
        }
        if !has_filter(&self.filters, board.filter) {
            return Ok(false);
        }
        self.boards.reserve()?;
        self.boards.put(board);
        Ok(true)
    }
}

// Whether there is a filter of that number.
fn has_filter(filters: &[Filter], no: FilterNo) -> bool
    requires { RiseFrom number 1 filters.now }
    ensures { result ≡ is_some (by_number number no.0 filters.now) }
{
    find(filters, no.0).is_some()
}
