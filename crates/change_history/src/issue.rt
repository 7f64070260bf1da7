ghost use Rattle.std.specs.Prelude.{◌≡◌, ◌≤◌, ◌+◌, ◌-◌, ◌^◌, ◌<◌, ◌++◌, ◌∷◌, length, vec_len, vec_capacity, IfOk, OnOk, OnErr, option_copied, option_map, unwrap_or, slice_get, [], take, drop, true, Some, IfSome, IfNone};
ghost use Rattle.change_history.specs.Small.{small_of, small_value};
ghost use Rattle.change_history.specs.History.{History, present, opening_value, updated, MayAdd};
ghost use Rattle.change_history.specs.Span.{entries_of, span_of};
ghost use Rattle.change_history.specs.Places.{Spots, first_in, place_in, spots_after, befores_by, value_at};
ghost use Rattle.change_history.specs.Before.{last_of, before_of};
ghost use Rattle.change_history.specs.declared.entry.Entry.{Entry};

use crate::change::{Change, Changes};
use crate::entry::{Entry, Group};
use crate::key::Key;
use crate::places::{Bounds, NO_BOUNDS, Place, first_number, last_number, place_in, set_spot};
use crate::small::{PLACES, Small, opening_small, put_small, small_at};
use crate::span::Span;
use field_values::{FieldNo, IssueNo, Memory, Moment, UserNo, Value};
use std::alloc::Global;
use std::marker::Model;

// How many things a list begins with room for at least: places and numbers are small, entries are large.
const FEW_PLACES: usize = 3;

const FEW_NUMBERS: usize = 10;

const FEW_ENTRIES: usize = 4;

/// An issue with its whole history. Contracts see it as that history, and beside it how many entries there is room for.
pub struct Issue {
    no: IssueNo,
    key: Key,
    change: u64,
    // What queries ask of most issues stands side by side from here on.
    at: Moment,
    author: UserNo,
    updated: Moment,
    entries: Vec<Entry>,
    // By the number of each field that every tracker has, where its entries begin and end, and what it holds.
    bounds: [Bounds; PLACES],
    small: [Small; PLACES],
    opening: Vec<Change>,
    // For each entry, the number of the last entry of its field before it.
    befores: Vec<u32>,
    // Of each other field that entries changed, where its last entry stands.
    others: Vec<Place>,
    room: usize,
    // What a field holds that never had a value.
    empty: Value,
}

// Written by hand, so that whoever lets one go makes one call, and its proof takes one step there.
impl Drop for Issue {
    fn drop(self) {
        let Issue {
            no: _,
            key: _,
            change: _,
            at: _,
            author: _,
            updated: _,
            entries: _,
            bounds: _,
            small: _,
            opening: _,
            befores: _,
            others: _,
            room: _,
            empty: _,
        } = self;
    }
}

impl Model for Issue {
    ghost use Rattle.change_history.specs.History.{RoomyHistory};

    ghost Value = { RoomyHistory };

    ghost use Rattle.change_history.specs.Kept.{roomy_history, IsKept};

    ghost view = { roomy_history };

    ghost invariant = { IsKept };
}

impl Issue {
    /// A new issue with these opening values; a field that isn't among them is empty. `change` is the number of the
    /// creation, which is a change group of its own.
    pub fn open(
        alloc: Global,
        no: IssueNo,
        key: Key,
        change: u64,
        at: Moment,
        author: UserNo,
        values: Changes,
    ) -> Result<Issue, Memory>
        ensures history { IfOk result (λ issue. issue.history ≡ record {
          no = no;
          key = key;
          change = change;
          at = at;
          author = author;
          opening = values;
          entries = [];
        }) }
        ensures room { IfOk result (λ issue. issue.room ≡ 0) }
    {
        let small = opening_small(&values.list);
        Ok(Issue {
            no,
            key,
            change,
            at,
            author,
            updated: at,
            opening: values.list,
            entries: Vec::new(alloc),
            befores: Vec::new(alloc),
            others: Vec::new(alloc),
            room: 0,
            small,
            bounds: NO_BOUNDS,
            empty: Value::Empty,
        })
    }

    /// The issue's number.
    pub fn no(&self) -> IssueNo
        ensures { result ≡ self.now.history.no }
    {
        self.no
    }

    /// The issue's key, lent.
    pub fn key(&self) -> &Key
        ensures { result.now ≡ self.now.history.key }
    {
        &self.key
    }

    /// The number of the creation's change group.
    pub fn change(&self) -> u64
        ensures { result ≡ self.now.history.change }
    {
        self.change
    }

    /// The moment of the creation.
    pub fn created(&self) -> Moment
        ensures { result ≡ self.now.history.at }
    {
        self.at
    }

    /// The user who created the issue.
    pub fn author(&self) -> UserNo
        ensures { result ≡ self.now.history.author }
    {
        self.author
    }

    /// The moment of the last change group, the creation among them.
    pub fn updated(&self) -> Moment
        ensures { result ≡ updated self.now.history }
    {
        self.updated
    }

    /// The present value of a field, lent.
    pub fn value(&self, field: FieldNo) -> &Value
        ensures { result.now ≡ present self.now.history field }
    {
        match self.last_entry(field) {
            Some(at) => value_at(&self.entries, at),
            None => self.opening(field),
        }
    }

    /// The present value of a field, where it takes no memory. Of a field that every tracker has, no list is looked at.
    pub fn small(&self, field: FieldNo) -> Small
        ensures small { result ≡ small_of (present self.now.history field) }
        ensures value { IfSome (small_value result) (λ v. v ≡ present self.now.history field) }
    {
        match small_at(&self.small, field) {
            Some(small) => small,
            None => Small::of(self.value(field)),
        }
    }

    /// The value that the issue was opened with, lent.
    pub fn opening(&self, field: FieldNo) -> &Value
        ensures { result.now ≡ opening_value self.now.history.opening field }
    {
        opening_value(&self.opening, field).unwrap_or(&self.empty)
    }

    /// Where the last entry stands that changes the field; `None` exactly where none does.
    pub fn last_entry(&self, field: FieldNo) -> Option<usize>
        ensures { result ≡ last_of self.now.history.entries field }
    {
        place_in(last_number(&self.bounds, &self.others, field))
    }

    /// Where the last entry before entry k stands that changes the same field; `None` exactly where none does, or where there is
    /// no entry k. The first entry of a field goes from what the field was opened with. No entry of another field is looked at.
    pub fn entry_before(&self, k: usize) -> Option<usize>
        ensures before { result
            ≡ before_of self.now.history.entries (slice_get self.now.history.entries k) k }
        ensures opened { IfNone result ((e : Entry)
            → slice_get self.now.history.entries k ≡ Some e
            → e.from ≡ opening_value self.now.history.opening e.field) }
    {
        if is_first(&self.bounds, &self.entries, k) {
            return None;
        }
        note_at(&self.befores, k)
    }

    /// Entry k of the issue, from 0; `None` exactly where there are at most k.
    pub fn entry(&self, k: usize) -> Option<&Entry>
        ensures { option_copied result ≡ slice_get self.now.history.entries k }
    {
        self.entries.get(k)
    }

    /// At most `count` of the entries, behind the first `from`, lent.
    pub fn part(&self, from: usize, count: usize) -> &[Entry]
        ensures { result.now ≡ take count (drop from self.now.history.entries) }
    {
        front(behind(&self.entries, from), count)
    }

    /// How many entries the issue has.
    pub fn entries(&self) -> usize
        ensures { result ≡ length self.now.history.entries }
    {
        self.entries.len()
    }

    /// Span k of a field: span 0 begins at the creation, and span k at the field's k-th entry. `None` exactly where the
    /// field has fewer than k entries.
    pub fn span(&self, field: FieldNo, k: usize) -> Option<Span<'_>>
        ensures { option_map (λ s. record {
          begin = s.begin;
          end = s.end;
          author = s.author;
          value = s.value.now;
        }) result ≡ span_of self.now.history field k }
    {
        let end = entry_of(&self.entries, field, k).map(|entry| entry.at);
        if k == 0 {
            return Some(Span {
                begin: self.at,
                end,
                author: self.author,
                value: self.opening(field),
            });
        }
        let entry = entry_of(&self.entries, field, k - 1)?;
        Some(Span {
            begin: entry.at,
            end,
            author: entry.author,
            value: &entry.to,
        })
    }

    /// Makes room for n entries more, or leaves all as it is. No issue has room for 2^32 entries.
    pub fn reserve(&mut self, n: usize) -> Result<(), Memory>
        ensures ok { OnOk result (self.new ≡ record self.old { room = n }) }
        ensures err { OnErr result (self.new ≡ self.old) }
        ensures history { self.new.history ≡ self.old.history }
    {
        if !has_numbers(self.entries.len(), n) {
            return Err(Memory);
        }
        reserve_some(&mut self.others, n, FEW_PLACES)?;
        reserve_some(&mut self.befores, n, FEW_NUMBERS)?;
        reserve_some(&mut self.entries, n, FEW_ENTRIES)?;
        self.room = n;
        Ok(())
    }

    /// Adds a group's entries at the end of the history, and changes nothing else. It takes no memory.
    pub fn add(&mut self, group: Group)
        requires room { length group.entries ≤ self.old.room }
        requires group { MayAdd self.old.history group.change group.at group.author group.entries }
        ensures history { self.new.history
            ≡ record self.old.history { entries = self.old.history.entries ++ group.entries } }
        ensures room { self.new.room ≡ self.old.room - length group.entries }
    {
        let entries = group.entries.list;
        self.room -= entries.len();
        self.updated = group.at;
        let first = self.entries.len() as u32 + 1;
        put_befores(
            &mut self.befores,
            &mut self.bounds,
            &mut self.others,
            first,
            &entries,
        );
        put_small(&mut self.small, &entries);
        append_all(&mut self.entries, entries);
    }
}

// The entries behind the first `from`.
fn behind(entries: &[Entry], from: usize) -> &[Entry]
    ensures { result.now ≡ drop from entries.now }
{
    if entries.len() <= from {
        return &[];
    }
    let (_, rest) = entries.split_at(from);
    rest
}

// The first entries, at most `count` of them.
fn front(entries: &[Entry], count: usize) -> &[Entry]
    ensures { result.now ≡ take count entries.now }
{
    if entries.len() <= count {
        return entries;
    }
    let (first, _) = entries.split_at(count);
    first
}

// What the entry at a place had its field hold.
fn value_at(entries: &[Entry], at: usize) -> &Value
    requires { at < length entries.now }
    ensures { result.now ≡ value_at entries.now at }
{
    &entries[at].to
}

fn opening_value(opening: &[Change], field: FieldNo) -> Option<&Value>
    ensures { unwrap_or (option_copied result) Value.Empty ≡ opening_value opening.now field }
{
    for change in opening {
        if change.field.0 == field.0 {
            return Some(&change.to);
        }
    }
    None
}

// Entry k of a field, from 0.
fn entry_of(entries: &[Entry], field: FieldNo, k: usize) -> Option<&Entry>
    ensures { option_copied result ≡ slice_get (entries_of entries.now field) k }
{
    let mut left = k;
    for entry in entries {
        if entry.field.0 == field.0 {
            if left == 0 {
                return Some(entry);
            }
            left -= 1;
        }
    }
    None
}

// Whether entry k is known to be the first one of its field. It lies where the caller looks too, as the notes don't.
fn is_first(bounds: &[Bounds], entries: &[Entry], k: usize) -> bool
    ensures { result ≡ true → IfSome (slice_get entries.now k)
        (λ e. first_in (slice_get bounds.now e.field.0) ≡ k + 1) }
{
    match entries.get(k) {
        Some(entry) => first_number(bounds, entry.field) as usize == k + 1,
        None => false,
    }
}

// The note of entry k.
fn note_at(befores: &[u32], k: usize) -> Option<usize>
    ensures { result ≡ place_in (unwrap_or (slice_get befores.now k) 0) }
{
    match befores.get(k) {
        Some(before) => place_in(*before),
        None => None,
    }
}

// Whether n entries behind so many have numbers of 32 bits.
fn has_numbers(entries: usize, n: usize) -> bool
    ensures { result ≡ true → entries + n < 2 ^ 32 }
{
    match entries.checked_add(n) {
        Some(all) => all < 4_294_967_296,
        None => false,
    }
}

// Makes room for n things more. A list that is full grows by half, and by room for a few things at least.
fn reserve_some<T>(list: &mut Vec<T>, n: usize, few: usize) -> Result<(), Memory>
    ensures items { list.new.items ≡ list.old.items }
    ensures len { vec_len list.new ≡ vec_len list.old }
    ensures capacity { OnOk result (vec_len list.new + n ≤ vec_capacity list.new) }
    ensures kept { vec_capacity list.old ≤ vec_capacity list.new }
{
    if list.capacity() - list.len() < n {
        list.reserve_exact(n.max(few).max(list.len() / 2))?;
    }
    Ok(())
}

// Notes for each of these entries, of which the first will have the number `first`, which one of its field comes before it, and sets
// where the entries of the fields that they change begin and end.
fn put_befores(
    befores: &mut Vec<u32>,
    bounds: &mut [Bounds],
    others: &mut Vec<Place>,
    first: u32,
    entries: &[Entry],
)
    // There is room for all that may come, so that no memory is taken, and numbers fit 32 bits.
    requires room { vec_len others.old + length entries.now ≤ vec_capacity others.old }
    requires befores { vec_len befores.old + length entries.now ≤ vec_capacity befores.old }
    requires few { first + length entries.now ≤ 2 ^ 32 }
    // The fields' first and last entries are then those of all entries so far. Each entry takes one
    // place at most, and no room is lost.
    ensures spots { (record { bounds = bounds.new; others = others.new.items }) ≡ spots_after
        (record { bounds = bounds.old; others = others.old.items }) first entries.now }
    ensures len { vec_len others.new ≤ vec_len others.old + length entries.now }
    ensures capacity { vec_capacity others.old ≤ vec_capacity others.new }
    // Each entry has a note then: which one of its field came last before it. No room is lost here
    // either.
    ensures befores_items { befores.new.items ≡ befores.old.items ++ befores_by
        (record { bounds = bounds.old; others = others.old.items }) first entries.now }
    ensures befores_len { vec_len befores.new ≡ vec_len befores.old + length entries.now }
    ensures befores_capacity { vec_capacity befores.old ≤ vec_capacity befores.new }
{
    for (index, entry) in entries.iter().enumerate() {
        befores.push_reserved(last_number(bounds, others, entry.field));
        set_spot(bounds, others, entry.field, first + index as u32);
    }
}

// Puts the entries at the end, where there is room.
fn append_all(entries: &mut Vec<Entry>, mut more: Vec<Entry>)
    requires { vec_len entries.old + vec_len more ≤ vec_capacity entries.old }
    ensures items { entries.new.items ≡ entries.old.items ++ more.items }
    ensures len { vec_len entries.new ≡ vec_len entries.old + vec_len more }
    ensures capacity { vec_capacity entries.old ≤ vec_capacity entries.new }
{
    entries.append(&mut more).unwrap();
}
