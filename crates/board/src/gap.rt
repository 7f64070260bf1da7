//! The rank between two neighbours that may be in different buckets.
ghost use Rattle.std.specs.Prelude.{◌≡◌, ◌<◌, ◌↔◌, IsTrue, IfOk, IfErr, IfSome};
ghost use Rattle.std.specs.Option.{option_copied};
ghost use Rattle.rank_strings.specs.Rank.{IsBelow};
ghost use Rattle.board.specs.Place.{IsBeside, bucket_between, bucket_beside, if_in, IsChosenBeside, ExplainsBeside};

use rank_strings::{Rank, RankFault, between};
use std::alloc::Global;

/// Whether a pair at a place is one of the two beside a gap.
pub(crate) fn is_beside(place: usize, above: usize) -> bool
    ensures { IsTrue result ↔ IsBeside place above }
{
    place <= above && above - place <= 1
}

fn bucket_between(low: u8, high: u8) -> u8
    ensures { result ≡ bucket_between low high }
{
    if low == 0 && high == 2 { 0 } else { high }
}

/// The bucket of a place between these ranks.
fn bucket_beside(low: Option<&Rank>, high: Option<&Rank>, empty_bucket: u8) -> u8
    requires { empty_bucket < 3 }
    ensures bucket { result
        ≡ bucket_beside (option_copied low.entry) (option_copied high.entry) empty_bucket }
    ensures in_circle { result < 3 }
{
    match (low, high) {
        (Some(low), Some(high)) => bucket_between(low.bucket(), high.bucket()),
        (Some(low), None) => low.bucket(),
        (None, Some(high)) => high.bucket(),
        (None, None) => empty_bucket,
    }
}

/// The rank, where it is in the bucket.
fn if_in<'a>(bucket: u8, rank: Option<&'a Rank>) -> Option<&'a Rank>
    ensures { option_copied result ≡ if_in bucket (option_copied rank.entry) }
{
    match rank {
        Some(rank) if rank.bucket() == bucket => Some(rank),
        _ => None,
    }
}

/// The rank that is chosen between the neighbours of a place, of which those in its bucket decide.
pub(crate) fn rank_between(
    alloc: Global,
    low: Option<&Rank>,
    high: Option<&Rank>,
    empty_bucket: u8,
) -> Result<Rank, RankFault>
    requires bucket { empty_bucket < 3 }
    requires in_order { IfSome (option_copied low)
        (λ l. IfSome (option_copied high) (λ h. IsBelow l h)) }
    ensures chosen { IfOk result (IsChosenBeside (option_copied low.entry)
        (option_copied high.entry) empty_bucket) }
    ensures fault { IfErr result (ExplainsBeside (option_copied low.entry)
        (option_copied high.entry) empty_bucket) }
{
    let bucket = bucket_beside(low, high, empty_bucket);
    between(alloc, if_in(bucket, low), if_in(bucket, high), bucket)
}
