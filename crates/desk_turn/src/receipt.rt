ghost use Rattle.std.specs.Prelude.{◌≡◌, length};

use crate::kept::Kept;
use crate::rule::SeatOf;

/// What a pass that was joined had called. The list is in contracts alone.
#[derive(Drop)]
pub struct Receipt<V: Kept> {
    pub(crate) seat: SeatOf<V>,
    pub(crate) calls: u32,
    ghost counted: { length seat.me.0.noted ≡ calls },
}

impl<V: Kept> Receipt<V> {
    ghost use Rattle.desk_turn.specs.Passes.{listed};

    /// How many calls it lists.
    pub fn calls(&self) -> u32
        ensures { result ≡ length (listed self.now) }
    {
        self.calls
    }
}
