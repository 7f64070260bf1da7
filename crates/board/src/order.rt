//! The order of all issues.
ghost use Rattle.std.specs.Prelude.{◌≡◌, ◌≢◌, ◌≤◌, ◌<◌, ◌+◌, [], length, IfOk, IfErr, IfSome, IsSome, IsTrue, Ok, Some, ◌↔◌, OnOk, OnErr, MatchOption, true, false, slice_get, slice_index_or, All, AllPairs, replicate};
ghost use Rattle.std.specs.Option.{option_copied};
ghost use Rattle.std.specs.Ordering.{nat_cmp};
ghost use Rattle.rank_strings.specs.Rank.{IsBelow};
ghost use Rattle.board.specs.Order.{IsOrder, IsIn, IsFreeFor, HasRoomFor, place_in, places_before, rank_in, beside, put_in, without, longest_in};
ghost use Rattle.board.specs.Issues.{issues_in};
ghost use Rattle.board.specs.Moved.{own_rank, rank_given, IsRefusalOf};
ghost use Rattle.board.specs.Place.{AreNamed, IsRankFor, ExplainsNoRank, named_by, above_place, rank_above, rank_below, stands_at};
ghost use Rattle.board.specs.Table.{nothing, issue_before, ArePlacesIn, ArePlacesTo};

use crate::find::{compare, place_by, rank_by};
use crate::gap::{is_beside, rank_between};
use crate::giving::put_rank;
use crate::lengths::longest;
use crate::place::Place;
use crate::room::room_for_issues;
use field_values::{IssueNo, Memory};
use rank_strings::{Rank, RankFault};
use std::alloc::Global;
use std::cmp::Ordering;
use std::marker::Model;

/// All issues by rank, the least rank first, which is the top of a board.
///
/// Contracts see the list of pairs of a rank and an issue, and beside it how many issues there is room for.
#[derive(Drop)]
pub struct Order {
    issues: Vec<IssueNo>,
    // By the issue's number, its rank.
    ranks: Vec<Option<Rank>>,
    // By the number of bytes, how many ranks have it.
    counts: Vec<usize>,
    alloc: Global,
}

impl Model for Order {
    ghost use Rattle.std.specs.Prelude.{◌-◌, vec_len, vec_capacity};
    ghost use Rattle.board.specs.Order.{Ranking};
    ghost use Rattle.board.specs.Table.{pairs_by, IsKept};

    ghost Value = { Ranking };

    ghost view = { λ o. record {
      pairs = pairs_by o.ranks.items o.issues.items;
      room = vec_len o.ranks - 1;
    } };

    ghost invariant = { λ o. IsKept o.issues.items o.ranks.items o.counts.items
        (vec_capacity o.issues) };
}

impl Order {
    /// The order of no issue.
    pub fn empty(alloc: Global) -> Order
        ensures { result ≡ record { pairs = []; room = 0 } }
    {
        Order {
            issues: Vec::new(alloc),
            ranks: Vec::new(alloc),
            counts: Vec::new(alloc),
            alloc,
        }
    }

    /// Makes room for this many issues more, and for the numbers that they have when all issues are numbered from 1; or
    /// leaves all as it is.
    #[tactic(auto, using(crate::proofs::Kept::same_pairs))]
    pub fn reserve(&mut self, n: usize) -> Result<(), Memory>
        ensures room { OnOk result (length self.old.pairs + n ≤ self.new.room) }
        ensures more { OnOk result (self.old.room ≤ self.new.room) }
        ensures pairs { OnOk result (self.new.pairs ≡ self.old.pairs) }
        ensures err { OnErr result (self.new ≡ self.old) }
    {
        room_for_issues(&mut self.issues, &mut self.ranks, &mut self.counts, n)
    }

    /// Gives the rank to the issue, whose pair goes to its place among the others, which stand. It takes no memory, and moves
    /// nothing but the numbers of the issues between the issue's old place and its new one.
    pub fn put(&mut self, issue: IssueNo, rank: Rank)
        requires free { IsFreeFor self.old.pairs issue.0 rank }
        requires room { place_in self.old.pairs issue.0 ≡ None → HasRoomFor self.old issue.0 }
        ensures { self.new
            ≡ record self.old { pairs = put_in (rank, issue) (without issue.0 self.old.pairs) } }
    {
        put_rank(
            &mut self.issues,
            &mut self.ranks,
            &mut self.counts,
            issue,
            rank,
        );
    }

    /// How many issues there are.
    pub fn len(&self) -> usize
        ensures { result ≡ length self.now.pairs }
    {
        self.issues.len()
    }

    /// The issues from the top of a board down. Ranks rise, and each issue stands once.
    pub fn issues(&self) -> &[IssueNo]
        ensures issues { result.now ≡ issues_in self.now.pairs }
        ensures order { IsOrder self.now.pairs }
    {
        &self.issues
    }

    /// The issue's rank, in constant time; `None` exactly where it isn't in the order.
    pub fn rank_of(&self, issue: IssueNo) -> Option<&Rank>
        ensures { option_copied result ≡ rank_in self.now.pairs issue.0 }
    {
        rank_by(&self.ranks, issue)
    }

    /// The issue at a place from 0, in constant time.
    pub fn issue_at(&self, place: usize) -> IssueNo
        requires { place < length self.now.pairs }
        ensures { result ≡ (slice_index_or self.now.pairs place nothing).1 }
    {
        self.issues[place]
    }

    /// The rank just below a gap with so many pairs above it, where there is one, in constant time.
    pub fn rank_below(&self, above: usize) -> Option<&Rank>
        ensures { option_copied result ≡ rank_below self.now.pairs above }
    {
        match self.issues.get(above) {
            Some(issue) => self.rank_of(*issue),
            None => None,
        }
    }

    /// The rank just above a gap with so many pairs above it, where there is one, in constant time.
    pub fn rank_above(&self, above: usize) -> Option<&Rank>
        ensures { option_copied result ≡ rank_above self.now.pairs above }
    {
        match above.checked_sub(1) {
            Some(before) => self.rank_below(before),
            None => None,
        }
    }

    /// The issue's place from 0, which is found by its rank, by halving; `None` exactly where it isn't in the order.
    pub fn place_of(&self, issue: IssueNo) -> Option<usize>
        ensures place { result ≡ place_in self.now.pairs issue.0 }
        ensures there { IsSome result ↔ IsIn self.now.pairs issue.0 }
    {
        place_by(&self.issues, &self.ranks, issue)
    }

    /// How many issues stand before this one; all of them where it isn't in the order.
    pub fn places_before(&self, issue: IssueNo) -> usize
        ensures { result ≡ places_before self.now.pairs issue.0 }
    {
        match self.place_of(issue) {
            Some(place) => place,
            None => self.len(),
        }
    }

    /// By each number an issue's place, and how many issues there are where it has none; by one walk over the order.
    pub fn places(&self, alloc: Global) -> Result<Vec<usize>, Memory>
        ensures { IfOk result (λ places. ArePlacesIn self.now.pairs places.items) }
    {
        places_of(alloc, &self.issues, self.ranks.len())
    }

    /// How the places of two issues are to each other, in constant time. An issue that isn't in the order stands behind all.
    pub fn compare(&self, one: IssueNo, other: IssueNo) -> Ordering
        ensures { result
            ≡ nat_cmp (places_before self.now.pairs one.0) (places_before self.now.pairs other.0) }
    {
        // The proof needs that it is an order.
        let _ = self.issues();
        compare(self.rank_of(one), self.rank_of(other))
    }

    /// The rank that puts the issue to the place, or a new issue where it is `None`, the issue itself left out of the order.
    /// `empty_bucket` is the bucket of the first rank of all.
    ///
    /// Where the issue stands just there, it is the rank that it has. `Exhausted` comes exactly where it doesn't, and no rank lies
    /// between the neighbours in the place's bucket, with these.
    pub fn rank_for(
        &self,
        issue: Option<IssueNo>,
        place: Place,
        empty_bucket: u8,
    ) -> Result<Rank, RankFault>
        // The issues that are named stand in the order and differ, and the bucket is one of the
        // three.
        requires named { AreNamed self.now.pairs issue place }
        requires bucket { empty_bucket < 3 }
        // What it gives puts the issue just there. It refuses only where no rank lies between the
        // neighbours, or for want of memory.
        ensures rank { IfOk result (IsRankFor self.now.pairs issue place empty_bucket) }
        ensures fault { IfErr result (ExplainsNoRank self.now.pairs issue place empty_bucket) }
        // The order alone decides which rank that is, or that there is none: both can be computed
        // from it.
        ensures computed { IfOk result (λ r. rank_given self.now.pairs issue place empty_bucket
            ≡ Ok r) }
        ensures refused { IfErr result (IsRefusalOf
            (rank_given self.now.pairs issue place empty_bucket)) }
    {
        let above = self.count_above(place);
        match self.rank_standing(issue, place, above) {
            Some(own) => Ok(own.copy(self.alloc)?),
            None => rank_between(
                self.alloc,
                self.rank_above(above),
                self.rank_below(above),
                empty_bucket,
            ),
        }
    }

    /// The issue's rank, where it stands just there.
    fn rank_standing(&self, issue: Option<IssueNo>, place: Place, above: usize) -> Option<&Rank>
        requires named { AreNamed self.now.pairs issue place }
        requires above { above ≡ above_place self.now.pairs place }
        ensures { MatchOption (option_copied result)
            (stands_at self.now.pairs issue place ≡ false)
            (λ rank. (stands_at self.now.pairs issue place ≡ true)
            × (own_rank self.now.pairs issue ≡ Some rank)) }
    {
        // The proof needs that it is an order.
        let _ = self.issues();
        let Some(issue) = issue else {
            return None;
        };
        if is_beside(self.places_before(issue), above) {
            self.rank_of(issue)
        } else {
            None
        }
    }

    /// How many pairs stand above the place, in the whole order.
    fn count_above(&self, place: Place) -> usize
        requires { IfSome (named_by place) (λ o. IsIn self.now.pairs o.0) }
        ensures { result ≡ above_place self.now.pairs place }
    {
        let count = self.len();
        match place {
            Place::Before(other) => self.places_before(other),
            Place::After(other) => self.places_before(other) + 1,
            Place::Last => count,
        }
    }

    /// Whether the rank is above all of the order's, which is to be above the last one's.
    pub fn is_above_all(&self, rank: &Rank) -> bool
        ensures { IsTrue result
            ↔ IfSome (rank_above self.now.pairs (length self.now.pairs))
            (λ last. IsBelow last rank.now) }
    {
        match self.rank_above(self.len()) {
            Some(last) => last.cmp(rank).is_lt(),
            None => true,
        }
    }

    /// The issue just before this one and the one just after it; `None` where there is none.
    pub fn neighbours(&self, issue: IssueNo) -> (Option<IssueNo>, Option<IssueNo>)
        ensures { result ≡ beside self.now.pairs (place_in self.now.pairs issue.0) }
    {
        match self.place_of(issue) {
            Some(place) => neighbours_at(&self.issues, place),
            None => (None, None),
        }
    }

    /// The bytes of the longest rank's text, 0 where there is none, in constant time.
    pub fn longest(&self) -> usize
        ensures { result ≡ longest_in self.now.pairs }
    {
        longest(&self.counts)
    }
}

/// The issue at a place, if it is one.
fn found_at(issues: &[IssueNo], place: usize) -> Option<IssueNo>
    ensures { result ≡ slice_get issues.now place }
{
    match issues.get(place) {
        Some(issue) => Some(*issue),
        None => None,
    }
}

/// The issues before and behind a place, where there are any.
fn neighbours_at(issues: &[IssueNo], place: usize) -> (Option<IssueNo>, Option<IssueNo>)
    requires { place < length issues.now }
    ensures { result ≡ (issue_before issues.now place, slice_get issues.now (place + 1)) }
{
    let before = match place.checked_sub(1) {
        Some(before) => found_at(issues, before),
        None => None,
    };
    (before, found_at(issues, place + 1))
}

/// By each of so many numbers the place of the issue that has it, and the end where none has.
fn places_of(alloc: Global, issues: &[IssueNo], numbers: usize) -> Result<Vec<usize>, Memory>
    requires in_range { All (λ issue. issue.0 < numbers) issues.now }
    requires once { AllPairs (λ i j. i.0 ≢ j.0) issues.now }
    ensures { IfOk result (λ places. ArePlacesTo issues.now (length issues.now)
        (replicate numbers (length issues.now)) places.items) }
{
    let mut places = vec![in alloc; issues.len(); numbers]?;
    set_places(issues, &mut places);
    Ok(places)
}

/// Writes the place of each issue by its number.
fn set_places(issues: &[IssueNo], places: &mut [usize])
    requires in_range { All (λ issue. issue.0 < length places.old) issues.now }
    requires once { AllPairs (λ i j. i.0 ≢ j.0) issues.now }
    ensures { ArePlacesTo issues.now (length issues.now) places.old places.new }
{
    for place in 0..issues.len() {
        places[issues[place].0 as usize] = place;
    }
}
