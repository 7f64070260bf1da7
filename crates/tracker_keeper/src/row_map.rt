// Rows in memory, found by kind and number in logarithmic time.
ghost use Rattle.std.specs.Prelude.{◌≡◌, ℕ, [], Some, None, IfOk, OnOk, OnErr, is_some};
ghost use Rattle.std.specs.Prelude.{reverse as reversed};
ghost use Rattle.tracker_keeper.specs.declared.row.RowOp.TheVariants.{Put, Drop as TakeOut};
ghost use Rattle.tracker_keeper.specs.Rows.{with_body, IsListing};
ghost use Rattle.tracker_keeper.specs.Places.{content, place_at, HasPlace, HasPlaceFor, HavePlaces};
ghost use Rattle.tracker_keeper.specs.Places.{is_vacant, IsSet, KeepRows, KeepPlaces, IsCarriedOut};
ghost use Rattle.tracker_keeper.specs.Places.{AreCarriedOut, CanTakeBack};

use crate::back::Back;
use crate::body::Body;
use crate::row::{Row, RowOp};
use field_values::Memory;
use std::alloc::Global;
use std::collections::BTreeMap;
use std::mem;

// Room for more than that isn't kept after a commit, so that a large one doesn't hold its memory.
const MOST_BACKS: usize = 64;

// Nor is a body with room for more bytes.
const MOST_BYTES: usize = 1_024;

/// A place for each kind and number, which has a body or is vacant. A commit carries out one operation after another, and notes
/// what takes each back. A row that is taken out leaves its place vacant until the end, so that taking back takes no memory.
///
/// The list of what takes back is kept from commit to commit for its room, and so is a body that was replaced. Nearly every commit
/// puts one row anew, that of where the tracker stands, whose bodies so take turns in the same memory.
#[derive(Drop)]
pub(crate) struct RowMap {
    alloc: Global,
    places: BTreeMap<(u8, u64), Option<Body>>,
    backs: Vec<Back>,
    spare: Body,
}

impl RowMap {
    /// No row.
    pub(crate) fn new(alloc: Global) -> RowMap
        ensures { (kind no : ℕ) → content result.places kind no ≡ None }
    {
        RowMap {
            alloc,
            places: BTreeMap::new(alloc),
            backs: Vec::new(alloc),
            spare: Body::new(alloc),
        }
    }

    fn has_place(&self, kind: u8, no: u64) -> bool
        ensures { result ≡ is_some (place_at self.now.places kind no) }
    {
        self.places.contains_key(&(kind, no))
    }

    // Puts a body, or none, at a place, and answers the body that was there. It takes memory only where the place isn't there.
    fn set(&mut self, kind: u8, no: u64, body: Option<Body>) -> Result<Option<Body>, Memory>
        ensures done { OnOk result (IsSet kind no (Some body) self.old.places self.new.places) }
        ensures before { IfOk result (λ before. before ≡ content self.old.places kind no) }
        ensures undone { OnErr result (self.new.places.entries ≡ self.old.places.entries) }
        ensures absent { OnErr result (place_at self.old.places kind no ≡ None) }
    {
        let before = self.places.insert((kind, no), body)?;
        Ok(before.flatten())
    }

    // Takes a place away, where there is one.
    fn unset(&mut self, kind: u8, no: u64)
        ensures { IsSet kind no None self.old.places self.new.places }
    {
        let _ = self.places.remove(&(kind, no));
    }

    // Gives a place another body, or makes it vacant, and answers the body that was there. It takes no memory.
    #[tactic(auto, using(crate::proofs::Placing::body_set, crate::proofs::Placing::set_stays))]
    fn set_body(&mut self, kind: u8, no: u64, body: Option<Body>) -> Option<Body>
        requires { HasPlace self.old.places kind no }
        ensures rows { (k n : ℕ) → content self.new.places k n
            ≡ with_body kind no body (content self.old.places) k n }
        ensures before { result ≡ content self.old.places kind no }
        ensures others { KeepPlaces self.old.places self.new.places }
    {
        let Ok(before) = self.set(kind, no, body) else {
            unreachable!()
        };
        before
    }

    // Makes a place vacant, where there is one, and answers the body that was there. It takes no memory.
    #[tactic(auto, using(crate::proofs::Placing::no_body, crate::proofs::Placing::none_from))]
    fn vacate(&mut self, kind: u8, no: u64) -> Option<Body>
        ensures rows { (k n : ℕ) → content self.new.places k n
            ≡ with_body kind no None (content self.old.places) k n }
        ensures before { result ≡ content self.old.places kind no }
        ensures others { KeepPlaces self.old.places self.new.places }
    {
        if self.has_place(kind, no) {
            return self.set_body(kind, no, None);
        }
        None
    }

    fn is_vacant(&self, kind: u8, no: u64) -> bool
        ensures { result ≡ is_vacant (place_at self.now.places kind no) }
    {
        match self.places.get(&(kind, no)) {
            Some(None) => true,
            _ => false,
        }
    }

    // Takes a place away that is vacant. It takes no memory.
    #[tactic(auto, using(crate::proofs::Placing::unset_vacant))]
    fn close_place(&mut self, kind: u8, no: u64)
        ensures { KeepRows self.old.places self.new.places }
    {
        if self.is_vacant(kind, no) {
            self.unset(kind, no);
        }
    }

    // Puts a row, and answers the operation that takes it back.
    #[tactic(auto, using(crate::proofs::Placing::body_set, crate::proofs::Placing::set_stays, crate::proofs::Placing::back_rows, crate::proofs::Placing::back_place))]
    fn put(&mut self, row: &Row) -> Result<Back, Memory>
        ensures rows { OnOk result (IsCarriedOut (Put row.now) self.old.places self.new.places) }
        ensures back { IfOk result (λ back. IsCarriedOut back self.new.places self.old.places) }
        ensures place { IfOk result (λ back. HasPlaceFor self.new.places back) }
        ensures others { KeepPlaces self.old.places self.new.places }
        ensures undone { OnErr result (KeepRows self.old.places self.new.places) }
    {
        let body = self.spare.reused_for(self.alloc, &row.body)?;
        let before = self.set(row.kind, row.no, Some(body))?;
        Ok(Back::leaving(row.kind, row.no, before))
    }

    // Takes a row out, where there is one, and answers the operation that takes that back. It takes no memory.
    #[tactic(auto, using(crate::proofs::Placing::back_rows, crate::proofs::Placing::back_place))]
    fn take_out(&mut self, kind: u8, no: u64) -> Back
        ensures rows { IsCarriedOut (TakeOut kind no) self.old.places self.new.places }
        ensures back { IsCarriedOut result self.new.places self.old.places }
        ensures place { HasPlaceFor self.new.places result }
        ensures others { KeepPlaces self.old.places self.new.places }
    {
        let before = self.vacate(kind, no);
        Back::leaving(kind, no, before)
    }

    // Carries out an operation, and answers the one that takes it back.
    fn carry_out(&mut self, op: &RowOp) -> Result<Back, Memory>
        ensures rows { OnOk result (IsCarriedOut op.now self.old.places self.new.places) }
        ensures back { IfOk result (λ back. IsCarriedOut back self.new.places self.old.places) }
        ensures place { IfOk result (λ back. HasPlaceFor self.new.places back) }
        ensures others { KeepPlaces self.old.places self.new.places }
        ensures undone { OnErr result (KeepRows self.old.places self.new.places) }
    {
        match op {
            RowOp::Put(row) => self.put(row),
            RowOp::Drop { kind, no } => Ok(self.take_out(*kind, *no)),
        }
    }

    // Carries out all operations, the first one first, or else only some of them, and adds to a list that is empty what takes those
    // back that were.
    fn carry_out_all(&mut self, ops: &[RowOp], backs: &mut Vec<Back>) -> Result<(), Memory>
        requires { backs.old.items ≡ [] }
        ensures done { OnOk result (AreCarriedOut ops.now self.old.places self.new.places) }
        ensures begun { OnErr result (CanTakeBack (reversed backs.new.items) self.old.places
            self.new.places) }
    {
        backs.reserve(ops.len())?;
        for op in ops {
            let Ok(back) = self.carry_out(op) else {
                return Err(Memory);
            };
            backs.push_reserved(back);
        }
        Ok(())
    }

    // Carries out an operation that takes another one back. It takes no memory.
    fn take_back(&mut self, back: Back)
        requires { HasPlaceFor self.old.places back }
        ensures rows { IsCarriedOut back self.old.places self.new.places }
        ensures others { KeepPlaces self.old.places self.new.places }
    {
        let (kind, no, body) = back.into_parts();
        match body {
            Some(body) => {
                let _ = self.set_body(kind, no, Some(body));
            }
            None => {
                let _ = self.vacate(kind, no);
            }
        }
    }

    // Carries out operations that take others back, the last one first. It takes no memory.
    fn take_back_all(&mut self, mut backs: Vec<Back>)
        requires { HavePlaces self.old.places (reversed backs.items) }
        ensures { AreCarriedOut (reversed backs.items) self.old.places self.new.places }
    {
        backs.reverse();
        for back in backs {
            self.take_back(back);
        }
    }

    // Takes the places away that operations have left vacant. It takes no memory.
    #[tactic(auto, using(crate::proofs::Placing::kept_more))]
    fn close_places(&mut self, ops: &[RowOp])
        ensures { KeepRows self.old.places self.new.places }
    {
        for op in ops {
            let (kind, no) = op.place();
            self.close_place(kind, no);
        }
    }

    // Takes the places away that drops have left vacant. It takes no memory.
    #[tactic(auto, using(crate::proofs::Placing::kept_more))]
    fn close_dropped(&mut self, ops: &[RowOp])
        ensures { KeepRows self.old.places self.new.places }
    {
        for op in ops {
            if let RowOp::Drop { kind, no } = op {
                self.close_place(*kind, *no);
            }
        }
    }

    // The list that is kept for its room, which is taken out.
    fn empty_backs(&mut self) -> Vec<Back>
        ensures empty { result.items ≡ [] }
        ensures places { self.new.places ≡ self.old.places }
    {
        let mut backs = mem::replace(&mut self.backs, Vec::new(self.alloc));
        backs.clear();
        backs
    }

    // Lets go what would take back what is done, but keeps the list for its room, and the first body for its own, unless that is
    // much.
    fn keep_room(&mut self, mut backs: Vec<Back>)
        ensures { self.new.places ≡ self.old.places }
    {
        while let Some(back) = backs.pop() {
            if let (_, _, Some(body)) = back.into_parts()
                && body.room() <= MOST_BYTES
            {
                self.spare = body;
            }
        }
        if backs.capacity() <= MOST_BACKS {
            self.backs = backs;
        }
    }

    /// Carries out all operations in order, as one, or none.
    #[tactic(auto, using(crate::proofs::Placing::carried_then, crate::proofs::Placing::taken_back))]
    pub(crate) fn commit(&mut self, ops: &[RowOp]) -> Result<(), Memory>
        ensures done { OnOk result (AreCarriedOut ops.now self.old.places self.new.places) }
        ensures undone { OnErr result (KeepRows self.old.places self.new.places) }
    {
        // No vacant place is left behind, though no clause says so. Once all is carried out, only a row that was taken out has left
        // one; once all is taken back, so may each row that was put where there was none.
        let mut backs = self.empty_backs();
        match self.carry_out_all(ops, &mut backs) {
            Ok(()) => {
                self.keep_room(backs);
                self.close_dropped(ops);
                Ok(())
            }
            Err(memory) => {
                self.take_back_all(backs);
                self.close_places(ops);
                Err(memory)
            }
        }
    }

    /// All rows, by kind and then number.
    pub(crate) fn list(&self) -> Result<Vec<Row>, Memory>
        ensures { IfOk result (λ list. IsListing (content self.now.places) list.items) }
    {
        let mut rows = Vec::with_capacity(self.alloc, self.places.len())?;
        for (place, body) in &self.places {
            if let Some(body) = body {
                rows.push(Row {
                    kind: place.0,
                    no: place.1,
                    body: body.text(self.alloc)?,
                })?;
            }
        }
        Ok(rows)
    }
}
