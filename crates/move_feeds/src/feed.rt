//! One subscription.
ghost use Rattle.std.specs.Prelude.{◌≡◌, ◌≤◌, ◌<◌, ◌+◌, ◌-◌, ◌^◌, ◌++◌, ◌∷◌, [], true, false, length, map, min, nat_lt, slice_index_or, IfOk, OnOk, vec_len, vec_capacity, if◌then◌else◌};
ghost use Rattle.list_changes.specs.Differ.{DifferAt, with_at};
ghost use Rattle.move_feeds.specs.Changes.{lacking, lacks_at, one_change, change};
ghost use Rattle.move_feeds.specs.Feed.{IsFeed, acknowledged, after_event, begun, blank, is_of, last, most_waiting, told};
ghost use Rattle.move_feeds.specs.Held.{HasRoomForOne, IsReady, is_concerned, taken_in};

use crate::least::least;
use crate::lister::Lister;
use crate::moves::{Change, Move};
use crate::queue::Queue;
use field_values::{FilterNo, IssueNo, Memory, UserNo};
use std::alloc::Global;
use std::marker::Model;
use std::mem;

/// So many moves wait at most.
const MOST_WAITING: usize = 100_000;

/// A set tells so many issues at most: their numbers have 32 bits.
const MOST_ISSUES: usize = 4_294_967_295;

/// From this number on no move is numbered.
const LAST_NUMBER: u64 = 9_223_372_036_854_775_808;

/// A subscription: what a filter lists for a user, and which moves were put out of it and not yet acknowledged.
#[derive(Drop)]
pub(crate) struct Feed {
    no: u32,
    user: UserNo,
    filter: FilterNo,
    // Of each issue whether it was listed at the last event.
    listed: Vec<bool>,
    // The same behind the event that is taken in, kept for its room.
    next: Vec<bool>,
    acked: u64,
    waiting: Queue,
    lapsed: bool,
}

impl Model for Feed {
    ghost use Rattle.std.specs.Prelude.{◌-◌, vec_len, vec_capacity};
    ghost use Rattle.move_feeds.specs.Feed.{IsFeed};
    ghost use Rattle.move_feeds.specs.Held.{HeldFeed};

    ghost Value = { HeldFeed };

    ghost view = { λ f. record {
      feed = record {
        no = f.no;
        user = f.user;
        filter = f.filter;
        listed = f.listed.items;
        acked = f.acked;
        waiting = f.waiting.items;
        lapsed = f.lapsed;
      };
      next = f.next.items;
      room = f.waiting.room;
      bits = vec_capacity f.listed - vec_len f.listed;
    } };

    ghost invariant = { λ f. IsFeed (record {
      no = f.no;
      user = f.user;
      filter = f.filter;
      listed = f.listed.items;
      acked = f.acked;
      waiting = f.waiting.items;
      lapsed = f.lapsed;
    }) };
}

impl Feed {
    /// A new subscription, which begins with an entry for each issue that the filter lists.
    pub(crate) fn begin<L: Lister>(
        alloc: Global,
        lister: &L,
        no: u32,
        user: UserNo,
        filter: FilterNo,
    ) -> Result<Feed, Memory>
        ensures { IfOk result (λ feed. feed.feed
            ≡ begun no user filter (L.lists lister.now user.0 filter.0)) }
    {
        let mut feed = Feed::blank(alloc, no, user, filter);
        feed.ready(lister)?;
        feed.take_in(lister);
        Ok(feed)
    }

    /// What holds of it: contracts may cite it.
    pub(crate) fn is_feed(&self)
        ensures { IsFeed self.now.feed }
    {
        let _ = &self.no;
    }

    // Without an issue and without a move.
    fn blank(alloc: Global, no: u32, user: UserNo, filter: FilterNo) -> Feed
        ensures { result.feed ≡ blank no user filter }
    {
        Feed {
            no,
            user,
            filter,
            listed: Vec::new(alloc),
            next: Vec::new(alloc),
            acked: 0,
            waiting: Queue::new(alloc),
            lapsed: false,
        }
    }

    /// Whether it has this number and is this user's.
    pub(crate) fn is_of(&self, no: u32, user: UserNo) -> bool
        ensures { result ≡ is_of no user.0 self.now.feed }
    {
        self.no == no && self.user.0 == user.0
    }

    /// Whether too many moves waited.
    pub(crate) fn is_lapsed(&self) -> bool
        ensures { result ≡ self.now.feed.lapsed }
    {
        self.lapsed
    }

    /// The number of the last move that was put out.
    pub(crate) fn last(&self) -> u64
        ensures { result ≡ last self.now.feed }
    {
        self.acked + self.waiting.len() as u64
    }

    /// How many moves wait.
    pub(crate) fn waiting(&self) -> usize
        ensures { result ≡ length self.now.feed.waiting }
    {
        self.waiting.len()
    }

    // ---- an event

    /// Asks what the filter lists now, and makes room for what that puts out. The subscription stays as it is.
    pub(crate) fn ready<L: Lister>(&mut self, lister: &L) -> Result<(), Memory>
        ensures ready { OnOk result (IsReady
            (L.lists lister.now self.old.feed.user.0 self.old.feed.filter.0) self.new) }
        ensures same { self.new.feed ≡ self.old.feed }
    {
        if self.lapsed {
            return Ok(());
        }
        lister.list(self.user, self.filter, &mut self.next)?;
        self.has_numbers(self.next.len())?;
        let most = count_lacking(&self.listed, &self.next)
            + count_lacking(&self.next, &self.listed);
        self.waiting.reserve(most)
    }

    // Whether there are numbers for the moves of so many issues, and for these.
    fn has_numbers(&self, issues: usize) -> Result<(), Memory>
        ensures last { OnOk result (last self.now.feed < 2 ^ 63) }
        ensures issues { OnOk result (issues < 2 ^ 32) }
    {
        if self.last() < LAST_NUMBER && issues <= MOST_ISSUES {
            return Ok(());
        }
        Err(Memory)
    }

    /// Puts out what comes in and what goes out as the filter lists what is at hand. It takes no memory.
    pub(crate) fn take_in<L: Lister>(&mut self, lister: &L)
        requires { IsReady (L.lists lister.now self.old.feed.user.0 self.old.feed.filter.0)
            self.old }
        ensures { self.new.feed ≡ after_event
            (L.lists lister.now self.old.feed.user.0 self.old.feed.filter.0) self.old.feed }
    {
        let _ = lister;
        if self.lapsed {
            return;
        }
        put_lacking(&self.listed, &self.next, false, &mut self.waiting);
        put_lacking(&self.next, &self.listed, true, &mut self.waiting);
        mem::swap(&mut self.listed, &mut self.next);
        self.lapsed = drop_if_many(&mut self.acked, &mut self.waiting);
    }

    /// Makes it ready in the same way where it is concerned by what may have changed.
    pub(crate) fn ready_if<L: Lister>(
        &mut self,
        lister: &L,
        only: Option<FilterNo>,
    ) -> Result<(), Memory>
        ensures ready { OnOk result (is_concerned only self.old.feed ≡ true → IsReady
            (L.lists lister.now self.old.feed.user.0 self.old.feed.filter.0) self.new) }
        ensures same { self.new.feed ≡ self.old.feed }
    {
        if !self.is_concerned(only) {
            return Ok(());
        }
        self.ready(lister)
    }

    /// Has it take the event in where it is concerned. It takes no memory.
    pub(crate) fn take_if<L: Lister>(&mut self, lister: &L, only: Option<FilterNo>)
        requires { is_concerned only self.old.feed ≡ true → IsReady
            (L.lists lister.now self.old.feed.user.0 self.old.feed.filter.0) self.old }
        ensures { self.new.feed ≡ taken_in only (L.lists lister.now) self.old.feed }
    {
        if self.is_concerned(only) {
            self.take_in(lister);
        }
    }

    // Whether it is of this filter, where only that one's list may have changed.
    fn is_concerned(&self, only: Option<FilterNo>) -> bool
        ensures { result ≡ is_concerned only self.now.feed }
    {
        match only {
            Some(filter) => self.filter.0 == filter.0,
            None => true,
        }
    }

    /// Makes room for one change and one issue more. The subscription stays as it is.
    pub(crate) fn reserve_one(&mut self) -> Result<(), Memory>
        ensures room { OnOk result (HasRoomForOne self.new) }
        ensures same { self.new.feed ≡ self.old.feed }
    {
        self.has_numbers(self.listed.len() + 1)?;
        self.listed.reserve(1)?;
        self.waiting.reserve(1)
    }

    /// Puts out whether the issue at a place has come in or gone out, where no other one has. It takes no memory.
    pub(crate) fn see<L: Lister>(&mut self, lister: &L, place: usize)
        requires room { HasRoomForOne self.old }
        requires one { self.old.feed.lapsed ≡ false → DifferAt place self.old.feed.listed
            (L.lists lister.now self.old.feed.user.0 self.old.feed.filter.0) }
        ensures { self.new.feed ≡ after_event
            (L.lists lister.now self.old.feed.user.0 self.old.feed.filter.0) self.old.feed }
    {
        if self.lapsed {
            return;
        }
        let is = lister.lists_at(self.user, self.filter, place);
        self.see_one(place, is);
    }

    // Puts out that the issue at a place has come in or gone out, where the filter lists it now and didn't, or doesn't and did.
    fn see_one(&mut self, place: usize, is: bool)
        requires room { HasRoomForOne self.old }
        requires place { self.old.feed.lapsed ≡ false → place ≤ length self.old.feed.listed }
        ensures { self.new.feed ≡ after_event (with_at place is self.old.feed.listed) self.old.feed }
    {
        if self.lapsed {
            return;
        }
        let was = is_at(&self.listed, place);
        put_one(was, is, place, &mut self.waiting);
        put_at(&mut self.listed, place, is);
        self.lapsed = drop_if_many(&mut self.acked, &mut self.waiting);
    }

    // ---- what is told, and what is acknowledged

    /// Puts the moves that wait and have a greater number, so many at most, in place of what `room` contained.
    pub(crate) fn put_told(&self, from: u64, count: usize, room: &mut Vec<Move>)
        requires { count ≤ vec_capacity room.old }
        ensures { room.new.items ≡ told from count self.now.feed }
    {
        room.clear();
        let passed = from.saturating_sub(self.acked);
        if passed < self.waiting.len() as u64 {
            let skip = passed as usize;
            let count = least(count, self.waiting.len() - skip);
            self.waiting
                .put_part(skip, count, self.acked + passed + 1, room);
        }
    }

    /// Lets the moves up to this number go, which is at most that of the last.
    pub(crate) fn acknowledge(&mut self, upto: u64)
        requires { upto ≤ last self.old.feed }
        ensures { self.new.feed ≡ acknowledged upto self.old.feed }
    {
        let done = upto.saturating_sub(self.acked);
        self.waiting.drop_front(done as usize);
        self.acked += done;
    }
}

// Where too many wait they go, and count as acknowledged. Says whether.
fn drop_if_many(acked: &mut u64, waiting: &mut Queue) -> bool
    requires { acked.old + length waiting.old.items < 2 ^ 64 }
    ensures lapsed { result ≡ nat_lt most_waiting (length waiting.old.items) }
    ensures acked { acked.new
        ≡ (if result then acked.old + length waiting.old.items else acked.old) }
    ensures waiting { waiting.new.items ≡ (if result then [] else waiting.old.items) }
{
    if waiting.len() <= MOST_WAITING {
        return false;
    }
    *acked += waiting.len() as u64;
    waiting.clear();
    true
}

// Whether the issue at a place is in the set that a list tells.
fn is_at(list: &[bool], place: usize) -> bool
    ensures { result ≡ slice_index_or list.now place false }
{
    match list.get(place) {
        Some(is) => *is,
        None => false,
    }
}

// Has the list tell this of the issue at a place, which may be the next one.
fn put_at(list: &mut Vec<bool>, place: usize, is: bool)
    requires place { place ≤ length list.old.items }
    requires room { vec_len list.old < vec_capacity list.old }
    ensures { list.new.items ≡ with_at place is list.old.items }
{
    if place < list.len() {
        list[place] = is;
    } else {
        list.push_reserved(is);
    }
}

// Has the issue at a place wait, where it is in the set and wasn't, or isn't and was.
fn put_one(was: bool, is: bool, place: usize, waiting: &mut Queue)
    requires few { place + 1 < 2 ^ 32 }
    requires waiting { length waiting.old.items < 2 ^ 40 }
    requires room { 0 < waiting.old.room }
    ensures items { waiting.new.items
        ≡ waiting.old.items ++ one_change (place + 1) was is }
    ensures long { length waiting.new.items ≤ length waiting.old.items + 1 }
{
    if was != is {
        waiting.push(Change {
            issue: IssueNo(place as u32 + 1),
            entered: is,
        });
    }
}

// Whether at a place the one set has the issue and the other hasn't.
fn lacks(these: &[bool], those: &[bool], place: usize) -> bool
    requires { place < length these.now }
    ensures { result ≡ lacks_at these.now those.now place }
{
    is_at(these, place) && !is_at(those, place)
}

// How many issues the one set has and the other hasn't.
fn count_lacking(these: &[bool], those: &[bool]) -> usize
    ensures { result ≡ length (lacking these.now those.now) }
{
    let mut count = 0;
    for at in 0..these.len() {
        count += one_if(lacks(these, those, at));
    }
    count
}

fn one_if(is: bool) -> usize
    ensures value { result ≡ (if is then 1 else 0) }
    ensures small { result ≤ 1 }
{
    if is { 1 } else { 0 }
}

// Has the issues wait that the one set has and the other hasn't, by number, all as entries or all as exits.
fn put_lacking(these: &[bool], those: &[bool], entered: bool, waiting: &mut Queue)
    requires few { length these.now < 2 ^ 32 }
    requires waiting { length waiting.old.items + length these.now < 2 ^ 40 }
    requires room { length (lacking these.now those.now) ≤ waiting.old.room }
    ensures items { waiting.new.items
        ≡ waiting.old.items ++ map (change entered) (lacking these.now those.now) }
    ensures room { waiting.new.room
        ≡ waiting.old.room - length (lacking these.now those.now) }
{
    for at in 0..these.len() {
        put_if(lacks(these, those, at), at, entered, waiting);
    }
}

// Has the issue at a place wait, if so.
fn put_if(is: bool, place: usize, entered: bool, waiting: &mut Queue)
    requires few { place + 1 < 2 ^ 32 }
    requires waiting { length waiting.old.items < 2 ^ 40 }
    requires room { is ≡ true → 0 < waiting.old.room }
    ensures items { waiting.new.items ≡ waiting.old.items
        ++ (if is then change entered (record { 0 = place + 1 }) ∷ [] else []) }
    ensures room { waiting.new.room ≡ waiting.old.room - (if is then 1 else 0) }
{
    if is {
        waiting.push(Change {
            issue: IssueNo(place as u32 + 1),
            entered,
        });
    }
}
