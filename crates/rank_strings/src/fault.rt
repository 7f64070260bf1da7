//! Why no rank was given.
ghost use Rattle.rank_strings.specs.declared.fault.RankFault.TheVariants.{Memory};
ghost use Rattle.std.specs.Prelude.{◌≡◌};

use crate::rank::Rank;
use std::alloc::AllocError;

/// Why there is no rank between two neighbours.
#[derive(Drop)]
pub enum RankFault {
    /// No rank of the bucket lies strictly between these two.
    Exhausted {
        low: Option<Rank>,
        high: Option<Rank>,
    },
    /// Memory ran out.
    Memory,
}

impl From<AllocError> for RankFault {
    ghost from_gives = { λ _ fault. fault ≡ Memory };

    fn from(_fault: AllocError) -> RankFault {
        RankFault::Memory
    }
}
