//! The rank between two neighbours.
ghost use Rattle.std.specs.Prelude.{◌≡◌, ◌<◌, ◌≤◌, IfOk, IfErr, IsOk, IfSome, Some};
ghost use Rattle.std.specs.Option.{option_copied};
ghost use Rattle.rank_strings.specs.Rank.{IsRank, AreDigits};
ghost use Rattle.rank_strings.specs.Between.{AreNeighbours, RanksGiven, LiesBetween, HasNoRoom};
ghost use Rattle.rank_strings.specs.Chosen.{IsChosen, least_above, greatest_below, further_of, front_of};
ghost use Rattle.rank_strings.specs.Choice.{chosen_between};
ghost use Rattle.rank_strings.specs.Gap.{IsGap};
ghost use Rattle.rank_strings.specs.NoRoom.{ExplainsFault, IsNoneFor};

use crate::fault::RankFault;
use crate::gap::{Gap, digits_in_gap, find_gap};
use crate::rank::Rank;
use crate::spacing::{digits_of, greatest_below, least_above, spaced_number};
use crate::text::Memory;
use std::alloc::Global;

fn front_of(rank: Option<&Rank>) -> [u8; 6]
    ensures value { result ≡ front_of (option_copied rank.entry) }
    ensures is_rank { IfSome (option_copied rank.entry) IsRank }
{
    match rank {
        Some(rank) => *rank.front(),
        None => [0; 6],
    }
}

fn further_of<'a>(rank: Option<&'a Rank>) -> &'a [u8]
    ensures value { result.now ≡ further_of (option_copied rank.entry) }
    ensures digits { AreDigits result.now }
{
    match rank {
        Some(rank) => rank.further(),
        None => &[],
    }
}

fn copy_of(alloc: Global, rank: Option<&Rank>) -> Result<Option<Rank>, Memory>
    ensures { IfOk result (λ copy. copy ≡ option_copied rank.entry) }
{
    match rank {
        Some(rank) => Ok(Some(rank.copy(alloc)?)),
        None => Ok(None),
    }
}

/// The rank of six digits alone, where those lie between.
fn spaced(alloc: Global, low: Option<&Rank>, high: Option<&Rank>, bucket: u8) -> Rank
    requires ranks { RanksGiven (option_copied low) (option_copied high) bucket }
    requires some { least_above (option_copied low) ≤ greatest_below (option_copied high) }
    ensures { IsChosen (option_copied low.entry) (option_copied high.entry) bucket result }
{
    let front = digits_of(spaced_number(low, high));
    Rank::of_six_digits(alloc, bucket, front)
}

/// The rank with a digit in the gap, where no six digits alone lie between.
fn finest(
    alloc: Global,
    low: Option<&Rank>,
    high: Option<&Rank>,
    bucket: u8,
    gap: Gap,
) -> Result<Rank, Memory>
    requires ranks { RanksGiven (option_copied low) (option_copied high) bucket }
    requires none { greatest_below (option_copied high) < least_above (option_copied low) }
    requires gap { IsGap (further_of (option_copied low))
        (further_of (option_copied high)) gap.depth gap.digit }
    ensures { IfOk result (IsChosen (option_copied low.entry) (option_copied high.entry) bucket) }
{
    let further = digits_in_gap(alloc, further_of(low), gap)?;
    Ok(Rank::of_digits(bucket, front_of(low), further))
}

/// The fault where no rank lies between.
fn exhausted(alloc: Global, low: Option<&Rank>, high: Option<&Rank>, bucket: u8) -> RankFault
    requires { HasNoRoom (option_copied low) (option_copied high) bucket }
    ensures { ExplainsFault (option_copied low.entry) (option_copied high.entry) bucket result }
{
    match (copy_of(alloc, low), copy_of(alloc, high)) {
        (Ok(low), Ok(high)) => RankFault::Exhausted { low, high },
        _ => RankFault::Memory,
    }
}

/// The rank that is chosen between two neighbours of the bucket, either of which may be absent.
///
/// `Exhausted` comes exactly where no rank of the bucket lies strictly between, with both neighbours. No memory is taken
/// where six digits alone lie between.
pub fn between(
    alloc: Global,
    low: Option<&Rank>,
    high: Option<&Rank>,
    bucket: u8,
) -> Result<Rank, RankFault>
    // The neighbours are of the bucket, the lower one first.
    requires { AreNeighbours (option_copied low) (option_copied high) bucket }
    // The rank lies strictly between, with no more digits than that needs. Where six are enough it
    // never fails, since these take no memory.
    ensures chosen { IfOk result (IsChosen (option_copied low.entry)
        (option_copied high.entry) bucket) }
    ensures strictly { IfOk result (LiesBetween (option_copied low.entry)
        (option_copied high.entry) bucket) }
    ensures six_digits { least_above (option_copied low.entry)
        ≤ greatest_below (option_copied high.entry) → IsOk result }
    // It refuses only where the bucket has no rank between, or for want of memory.
    ensures fault { IfErr result (ExplainsFault (option_copied low.entry)
        (option_copied high.entry) bucket) }
    // The neighbours alone decide it: it can be computed from them.
    ensures computed { IfOk result (λ r. chosen_between (option_copied low.entry)
        (option_copied high.entry) bucket ≡ Some r) }
    ensures none { IfErr result (IsNoneFor
        (chosen_between (option_copied low.entry) (option_copied high.entry) bucket)) }
{
    if least_above(low) <= greatest_below(high) {
        return Ok(spaced(alloc, low, high, bucket));
    }
    match find_gap(further_of(low), further_of(high)) {
        Some(gap) => Ok(finest(alloc, low, high, bucket, gap)?),
        None => Err(exhausted(alloc, low, high, bucket)),
    }
}
