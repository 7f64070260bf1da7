ghost use Rattle.std.specs.Prelude.{◌≡◌, IsTrue, IfSome};
ghost use Rattle.rank_strings.specs.Rank.{IsBelow};
ghost use Rattle.std.specs.Option.{option_copied};

use super::placing::{MOST_ZEROS, behind_zeros, is, is_exhausted, is_written, rank_of};
use rank_strings::{Rank, RankFault, between};
use std::alloc::Global;
use std::cmp::Ordering;

fn are_in_order(low: Option<&Rank>, high: Option<&Rank>) -> bool
    ensures { IsTrue result → IfSome (option_copied low.entry)
        (λ l. IfSome (option_copied high.entry) (λ h. IsBelow l h)) }
{
    match (low, high) {
        (Some(low), Some(high)) => low.cmp(high) == Ordering::Less,
        _ => true,
    }
}

fn is_in_bucket(rank: Option<&Rank>, bucket: u8) -> bool
    ensures { IsTrue result → IfSome (option_copied rank.entry) (λ r. r.bucket ≡ bucket) }
{
    match rank {
        Some(rank) => rank.bucket() == bucket,
        None => true,
    }
}

/// The answer that tells the rank between two neighbours. `None` where none may be asked for.
fn chosen(
    alloc: Global,
    low: Option<&Rank>,
    high: Option<&Rank>,
    bucket: u8,
) -> Option<Result<Rank, RankFault>> {
    if 3 <= bucket {
        return None;
    }
    if !is_in_bucket(low, bucket) {
        return None;
    }
    if !is_in_bucket(high, bucket) {
        return None;
    }
    if !are_in_order(low, high) {
        return None;
    }
    Some(between(alloc, low, high, bucket))
}

/// A neighbour from its text, which the empty text has none. `None` for other texts that are no rank's.
fn neighbour(alloc: Global, text: &str) -> Option<Option<Rank>> {
    if text.is_empty() {
        return Some(None);
    }
    match rank_of(alloc, text) {
        Some(rank) => Some(Some(rank)),
        None => None,
    }
}

/// The answer for the neighbours that texts write.
fn chosen_between(
    alloc: Global,
    low: &str,
    high: &str,
    bucket: u8,
) -> Option<Result<Rank, RankFault>> {
    let low = neighbour(alloc, low)?;
    let high = neighbour(alloc, high)?;
    chosen(alloc, low.as_ref(), high.as_ref(), bucket)
}

/// Low neighbour, high neighbour, bucket and the chosen rank.
const ROWS: [(&str, &str, u8, &str); 20] = [
    ("", "", 0, "0|i00000:"),
    ("0|i00000:", "", 0, "0|i006bk:"),
    ("0|i006bk:", "", 0, "0|i00cn4:"),
    ("", "0|i00000:", 0, "0|hzztog:"),
    ("0|i00000:", "0|i006bk:", 0, "0|i0035s:"),
    ("0|i00000:", "0|i00001:", 0, "0|i00000:i"),
    ("0|i00000:", "0|i00000:1", 0, "0|i00000:0i"),
    ("0|i00000:i", "0|i00000:j", 0, "0|i00000:ii"),
    ("", "0|000001:", 0, "0|000000:i"),
    ("", "0|000003:", 0, "0|000001:"),
    ("0|zzzzzz:", "", 0, "0|zzzzzz:i"),
    ("0|zzzzz0:", "", 0, "0|zzzzzi:"),
    ("", "1|r00000:", 1, "1|qzztog:"),
    ("", "1|qzztog:", 1, "1|qzzncw:"),
    ("1|qzzncw:", "1|qzztog:", 1, "1|qzzqio:"),
    ("", "", 2, "2|i00000:"),
    ("0|i00000:z", "0|i00001:", 0, "0|i00000:zi"),
    ("0|i00000:i", "0|i00000:k", 0, "0|i00000:j"),
    ("0|i00000:i", "0|i00000:j1", 0, "0|i00000:j"),
    ("", "0|000000:1", 0, "0|000000:0i"),
];

fn is_chosen(alloc: Global, low: &str, high: &str, bucket: u8, want: &str) -> Option<bool> {
    let rank = chosen_between(alloc, low, high, bucket)?.ok()?;
    Some(is_written(alloc, &rank, want) && rank.len() == want.len())
}

fn are_chosen(alloc: Global) -> bool {
    for &(low, high, bucket, want) in &ROWS {
        if is_chosen(alloc, low, high, bucket, want) != Some(true) {
            return false;
        }
    }
    true
}

#[test]
fn chooses_the_rank_of_each_row(rt: HostRuntime) {
    let passes = are_chosen(rt.alloc());
    assert!(rt; passes);
}

/// Texts that are no rank's.
const NO_RANKS: [&str; 18] = [
    "",
    "0|i00000",
    "3|i00000:",
    "/|i00000:",
    "0:i00000:",
    "0|i00000|",
    "0|I00000:",
    "0|i0000{:",
    "0|i0000:i",
    "0|i000000:",
    "0|000000:",
    "0|i00000:0",
    "0|i00000:i0",
    "0|i00000:I",
    "0|i00000:i ",
    " 0|i00000:",
    "0|i00000: i",
    "0|i00000:\u{e9}",
];

fn is_no_rank(alloc: Global, text: &str) -> bool {
    match Rank::read(alloc, text.as_bytes()) {
        Ok(rank) => rank.is_none(),
        Err(_) => false,
    }
}

fn are_no_ranks(alloc: Global) -> bool {
    for text in &NO_RANKS {
        if !is_no_rank(alloc, text) {
            return false;
        }
    }
    true
}

#[test]
fn reads_nothing_else(rt: HostRuntime) {
    let passes = are_no_ranks(rt.alloc());
    assert!(rt; passes);
}

/// Ranks from the least to the greatest.
const IN_ORDER: [&str; 9] = [
    "0|000000:1",
    "0|000001:",
    "0|i00000:",
    "0|i00000:0i",
    "0|i00000:9",
    "0|i00000:a",
    "0|i00001:",
    "1|000001:",
    "2|zzzzzz:z",
];

/// How the ranks that two texts write stand to each other.
fn order_of(alloc: Global, one: &str, other: &str) -> Option<Ordering> {
    let one = rank_of(alloc, one)?;
    let other = rank_of(alloc, other)?;
    Some(one.cmp(&other))
}

fn are_ordered(alloc: Global) -> bool {
    for (i, one) in IN_ORDER.iter().enumerate() {
        for (j, other) in IN_ORDER.iter().enumerate() {
            if order_of(alloc, one, other) != Some(i.cmp(&j)) {
                return false;
            }
        }
    }
    true
}

#[test]
fn orders_ranks_as_texts(rt: HostRuntime) {
    let passes = are_ordered(rt.alloc());
    assert!(rt; passes);
}

fn has_no_room(alloc: Global) -> Option<bool> {
    let high = behind_zeros(alloc, MOST_ZEROS).ok()?;
    let answer = chosen_between(alloc, "0|i00000:", high.as_str(), 0)?;
    Some(is_exhausted(alloc, &answer, "0|i00000:", high.as_str()))
}

#[test]
fn is_exhausted_at_254_bytes(rt: HostRuntime) {
    let passes = has_no_room(rt.alloc()) == Some(true);
    assert!(rt; passes);
}

/// One byte before that there is room for the longest rank, and longer ones are none.
fn has_room(alloc: Global) -> Option<bool> {
    let high = behind_zeros(alloc, 243).ok()?;
    let last = chosen_between(alloc, "0|i00000:", high.as_str(), 0)?.ok()?;
    Some(last.len() == 254)
}

fn is_longest(alloc: Global) -> Option<bool> {
    let too_long = behind_zeros(alloc, 245).ok()?;
    Some(is_no_rank(alloc, too_long.as_str()))
}

#[test]
fn is_not_exhausted_before(rt: HostRuntime) {
    let passes = has_room(rt.alloc()) == Some(true) && is_longest(rt.alloc()) == Some(true);
    assert!(rt; passes);
}

/// The rank between two neighbours, which lies between them.
fn inserted(alloc: Global, low: Option<&Rank>, high: Option<&Rank>) -> Option<Rank> {
    let rank = chosen(alloc, low, high, 0)?.ok()?;
    is(are_in_order(low, Some(&rank)) && are_in_order(Some(&rank), high))?;
    Some(rank)
}

/// Three hundred ranks, each between the last one and the neighbour that stays: how long the longest is.
fn inserts(alloc: Global, low: &str, high: &str, moves_low: bool) -> Option<usize> {
    let mut low = neighbour(alloc, low)?;
    let mut high = neighbour(alloc, high)?;
    let mut longest = 0;
    for _ in 0..300 {
        let rank = inserted(alloc, low.as_ref(), high.as_ref())?;
        longest = rank.len().max(longest);
        if moves_low {
            low = Some(rank);
        } else {
            high = Some(rank);
        }
    }
    Some(longest)
}

/// The neighbours, whether the low one moves, and between which lengths the longest rank is.
const INSERTS: [(&str, &str, bool, usize, usize); 4] = [
    ("", "0|i00000:", false, 9, 9),
    ("0|i00000:", "", true, 9, 9),
    ("0|i00000:", "0|i006bk:", false, 10, 127),
    ("0|i00000:", "0|i006bk:", true, 10, 127),
];

fn takes_inserts(alloc: Global) -> bool {
    for &(low, high, moves_low, least, most) in &INSERTS {
        let longest = inserts(alloc, low, high, moves_low).unwrap_or(0);
        if longest < least || most < longest {
            return false;
        }
    }
    true
}

#[test]
fn takes_300_inserts_in_a_row(rt: HostRuntime) {
    let passes = takes_inserts(rt.alloc());
    assert!(rt; passes);
}

fn copies(alloc: Global) -> Option<bool> {
    let rank = Rank::of_six_digits(alloc, 1, [27, 0, 0, 0, 0, 0]);
    let copy = rank.copy(alloc).ok()?;
    Some(copy == rank && is_written(alloc, &copy, "1|r00000:"))
}

fn copies_a_longer_one(alloc: Global) -> Option<bool> {
    let rank = Rank::of_six_digits(alloc, 1, [27, 0, 0, 0, 0, 0]);
    let longer = rank_of(alloc, "1|r00000:0i")?;
    let copy = longer.copy(alloc).ok()?;
    Some(rank < longer && copy == longer)
}

#[test]
fn makes_and_copies_a_rank(rt: HostRuntime) {
    let passes = copies(rt.alloc()) == Some(true) && copies_a_longer_one(rt.alloc()) == Some(true);
    assert!(rt; passes);
}
