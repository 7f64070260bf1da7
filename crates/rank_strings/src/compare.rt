//! Ranks compare as their texts.
ghost use Rattle.std.specs.Prelude.{◌≡◌, ◌↔◌, IsTrue, refl};
ghost use Rattle.std.specs.Ordering.{nat_cmp, eq_by_cmp, as_partial_cmp};
ghost use Rattle.std.specs.Cmp.{partial_order_from_total, partial_equiv_from_equiv};
ghost use Rattle.std.specs.Cmp.Lexicographic.{slice_cmp};
ghost use Rattle.std.proofs.lemmas.Cmp.{eq_by_cmp_equiv};
ghost use Rattle.rank_strings.specs.Rank.{IsRank, rank_cmp};
ghost use Rattle.rank_strings.specs.Text.{rank_text};
ghost use Rattle.rank_strings.specs.Total.{rank_cmp-total};

use crate::rank::Rank;
use std::cmp::Ordering;

impl PartialEq for Rank {
    ghost eq = { eq_by_cmp rank_cmp };

    ghost laws = { partial_equiv_from_equiv (eq_by_cmp_equiv rank_cmp-total) };

    fn eq(&self, other: &Rank) -> bool
        ensures value { result ≡ eq_by_cmp rank_cmp self.now other.now }
        ensures same { IsTrue result ↔ (self.now ≡ other.now) }
    {
        self.cmp(other) == Ordering::Equal
    }
}

impl Eq for Rank {
    ghost laws = { eq_by_cmp_equiv rank_cmp-total };
}

impl PartialOrd for Rank {
    ghost partial_cmp = { as_partial_cmp rank_cmp };

    ghost laws = { partial_order_from_total rank_cmp-total };

    fn partial_cmp(&self, other: &Rank) -> Option<Ordering> {
        Some(self.cmp(other))
    }
}

impl Ord for Rank {
    ghost cmp = { rank_cmp };

    ghost total = { rank_cmp-total };

    ghost matches_partial_cmp = { λ a b. refl };

    ghost matches_eq = { λ a b. refl };

    /// How the two ranks stand in the order of ranks, which is that of their texts.
    fn cmp(&self, other: &Rank) -> Ordering
        ensures order { result ≡ rank_cmp self.now other.now }
        ensures ranks { IsRank self.now × IsRank other.now }
        ensures texts { result ≡ slice_cmp nat_cmp (rank_text self.now) (rank_text other.now) }
    {
        self.bucket()
            .cmp(&other.bucket())
            .then(self.front().cmp(other.front()))
            .then(self.further().cmp(other.further()))
    }
}
