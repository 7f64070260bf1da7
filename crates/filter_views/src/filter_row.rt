//! What is kept of one filter.
ghost use Rattle.std.specs.Prelude.{◌≡◌, ◌≤◌, ◌<◌, ◌+◌, ◌-◌, ◌^◌, ◌++◌, ◌∷◌, [], false, IfOk, OnOk, length, replicate, slice_set, vec_len, vec_capacity};
ghost use Rattle.filter_views.specs.Fields.{holders_from};
ghost use Rattle.filter_views.specs.FilterRow.{no_place, truth_at, place_at, HasNumber};

use field_values::{FilterNo, IssueNo, Memory};
use std::alloc::Global;
use std::marker::Model;

/// The place of a cell that has no end.
pub(crate) const NO_PLACE: usize = usize::MAX;

/// A filter's row: by the issue's number, whether the filter holds of it, and the place of the cell's end in the heap.
#[derive(Drop)]
pub struct FilterRow {
    filter: FilterNo,
    truths: Vec<bool>,
    places: Vec<usize>,
    // For how many issues there is room.
    room: usize,
}

impl Model for FilterRow {
    ghost use Rattle.std.specs.Prelude.{◌≤◌, vec_capacity};
    ghost use Rattle.filter_views.specs.RowParts.{RowParts};

    ghost Value = { RowParts };

    ghost view = { λ r. record {
      filter = r.filter.0;
      truths = r.truths.items;
      places = r.places.items;
      room = r.room;
    } };

    ghost invariant = { λ r. (r.room ≤ vec_capacity r.truths) × (r.room ≤ vec_capacity r.places) };
}

impl FilterRow {
    /// A row without a number, whose cells are false and have no end, with room for these issues.
    pub(crate) fn blank(alloc: Global, issues: usize) -> Result<FilterRow, Memory>
        ensures { IfOk result (λ row. row
            ≡ record {
              filter = 0;
              truths = replicate issues false;
              places = replicate issues no_place;
              room = issues;
            }) }
    {
        Ok(FilterRow {
            filter: FilterNo(0),
            truths: vec![in alloc; false; issues]?,
            places: vec![in alloc; NO_PLACE; issues]?,
            room: issues,
        })
    }

    /// Makes room for this many issues.
    pub(crate) fn reserve(&mut self, most: usize) -> Result<(), Memory>
        ensures room { OnOk result (most ≤ self.new.room) }
        ensures more { self.old.room ≤ self.new.room }
        ensures same { self.new ≡ record self.old { room = self.new.room } }
    {
        if most <= self.room {
            return Ok(());
        }
        self.truths.reserve(most.saturating_sub(self.truths.len()))?;
        self.places.reserve(most.saturating_sub(self.places.len()))?;
        self.room = most;
        Ok(())
    }

    /// Adds a cell for the next issue.
    pub(crate) fn add_issue(&mut self)
        requires truths { length self.old.truths < self.old.room }
        requires places { length self.old.places < self.old.room }
        ensures { self.new
            ≡ record self.old {
              truths = self.old.truths ++ false ∷ [];
              places = self.old.places
                  ++ no_place ∷ [];
            } }
    {
        self.truths.push_reserved(false);
        self.places.push_reserved(NO_PLACE);
    }

    /// The filter's number.
    pub(crate) fn filter(&self) -> u32
        ensures { result ≡ self.now.filter }
    {
        self.filter.0
    }

    /// Gives the row to a filter.
    pub(crate) fn give_to(&mut self, filter: FilterNo)
        ensures { self.new ≡ record self.old { filter = filter.0 } }
    {
        self.filter = filter;
    }

    /// Whether the filter holds of the issue.
    pub(crate) fn holds(&self, issue: IssueNo) -> bool
        ensures { result ≡ truth_at self.now issue.0 }
    {
        if issue.0 == 0 {
            return false;
        }
        match self.truths.get((issue.0 - 1) as usize) {
            Some(truth) => *truth,
            None => false,
        }
    }

    /// The place of the cell's end in the heap.
    pub(crate) fn place(&self, issue: IssueNo) -> usize
        ensures { result ≡ place_at self.now issue.0 }
    {
        if issue.0 == 0 {
            return NO_PLACE;
        }
        match self.places.get((issue.0 - 1) as usize) {
            Some(place) => *place,
            None => NO_PLACE,
        }
    }

    /// Writes whether the filter holds of the issue.
    pub(crate) fn set_truth(&mut self, issue: IssueNo, holds: bool)
        requires { HasNumber issue.0 (length self.old.truths) }
        ensures { self.new
            ≡ record self.old { truths = slice_set self.old.truths (issue.0 - 1) holds } }
    {
        self.truths[(issue.0 - 1) as usize] = holds;
    }

    /// Writes the place of the cell's end in the heap.
    pub(crate) fn set_place(&mut self, issue: IssueNo, place: usize)
        requires { HasNumber issue.0 (length self.old.places) }
        ensures { self.new
            ≡ record self.old { places = slice_set self.old.places (issue.0 - 1) place } }
    {
        self.places[(issue.0 - 1) as usize] = place;
    }

    /// Adds the issues of which the filter holds, by number, to those in `room`, which has room for all.
    pub(crate) fn add_members(&self, room: &mut Vec<IssueNo>)
        requires few { length self.now.truths < 2 ^ 32 }
        requires slots { vec_len room.old + length self.now.truths ≤ vec_capacity room.old }
        ensures { room.new.items ≡ room.old.items ++ holders_from 1 self.now.truths }
    {
        add_holders(&self.truths, room);
    }
}

/// Adds the numbers of the issues that are true, from 1.
fn add_holders(truths: &[bool], room: &mut Vec<IssueNo>)
    requires few { length truths.now < 2 ^ 32 }
    requires slots { vec_len room.old + length truths.now ≤ vec_capacity room.old }
    ensures { room.new.items ≡ room.old.items ++ holders_from 1 truths.now }
{
    for at in 0..truths.len() {
        if truths[at] {
            room.push_reserved(IssueNo(at as u32 + 1));
        }
    }
}
