ghost use Rattle.std.specs.Prelude.{◌≡◌};
ghost use Rattle.desk_turn.specs.Resting.{IsPass};

use crate::kept::Kept;
use crate::rule::SeatOf;

/// The right to make calls of a turn, under one caller number.
///
/// A pass has seen a beginning of the history, and knows its own calls in it. The first pass also
/// keeps the calls of each pass that was joined to it. All of this is in contracts alone.
#[derive(Drop)]
pub struct Pass<V: Kept> {
    pub(crate) seat: SeatOf<V>,
    pub(crate) caller: u32,
    pub(crate) left: u32,
    pub(crate) made: u32,
    pub(crate) out: u32,
    pub(crate) calls: u32,
    ghost is_pass: { IsPass seat.me caller left made out calls },
}

impl<V: Kept> Pass<V> {
    ghost use Rattle.desk_turn.specs.Passes.{caller_of, left_of, out_of};

    /// How many calls it may still make.
    pub fn left(&self) -> u32
        ensures { result ≡ left_of self.now }
    {
        self.left
    }

    /// The number under which its calls stand in the history.
    pub fn caller(&self) -> u32
        ensures { result ≡ caller_of self.now }
    {
        self.caller
    }

    /// For the first pass, how many passes that were split from it are not yet joined.
    pub fn out(&self) -> u32
        ensures { result ≡ out_of self.now }
    {
        self.out
    }
}
