//! All subscriptions.
ghost use Rattle.std.specs.Prelude.{◌≡◌, ◌≤◌, ◌<◌, ◌^◌, [], None, Some, length, map, option_map, find, position, IfOk, IfErr, IfSome, OnOk, OnErr, vec_capacity};
ghost use Rattle.std.specs.Option.{option_copied};
ghost use Rattle.move_feeds.specs.Changed.{MayAllList};
ghost use Rattle.move_feeds.specs.Held.{feeds_of};
ghost use Rattle.move_feeds.specs.Feed.{acknowledged, is_of, last, told};
ghost use Rattle.move_feeds.specs.FeedList.{AreFeeds, IsFault, ack_fault, after_lists, changed_first, feed_of, full_fault, moves_fault, no_feeds, subscribed, there_fault, with_acknowledged, without_feed, without_first};

use crate::each::{after_each, are_feeds};
use crate::feed::Feed;
use crate::lister::Lister;
use crate::moves::Move;
use field_values::{FilterNo, Memory, UserNo};
use list_changes::Changed;
use std::alloc::Global;
use std::marker::Model;

/// So many subscriptions are there at most.
pub const MOST_FEEDS: usize = 100;

/// Why nothing is done.
#[derive(Clone, Copy, PartialEq, Eq)]
pub enum FeedFault {
    /// There are as many subscriptions as there may be.
    Full,
    /// The user has no subscription of that number.
    NotThere,
    /// Too many moves waited. This is the number of the last.
    Lapsed(u64),
    /// The last move has this number, which is less than what was acknowledged.
    Beyond(u64),
    /// There was not enough memory.
    Memory,
}

/// The subscriptions by number. Numbers aren't used again.
#[derive(Drop)]
pub struct Feeds {
    alloc: Global,
    list: Vec<Feed>,
    made: u32,
}

impl Model for Feeds {
    ghost use Rattle.std.specs.Prelude.{◌≤◌, length};
    ghost use Rattle.move_feeds.specs.FeedList.{FeedList, most_feeds};
    ghost use Rattle.move_feeds.specs.Held.{feeds_of};

    ghost Value = { FeedList };

    ghost view = { λ f. record { feeds = feeds_of f.list.items; made = f.made } };

    ghost invariant = { λ f. length f.list.items ≤ most_feeds };
}

impl Feeds {
    /// Without a subscription.
    pub fn empty(alloc: Global) -> Feeds
        ensures { result ≡ no_feeds }
    {
        Feeds {
            alloc,
            list: Vec::new(alloc),
            made: 0,
        }
    }

    /// What holds of them: contracts may cite it.
    pub fn are_feeds(&self)
        ensures { AreFeeds self.now }
    {
        are_feeds(&self.list);
    }

    /// Subscribes the user to a filter, and answers the number of the subscription.
    pub fn subscribe<L: Lister>(
        &mut self,
        lister: &L,
        user: UserNo,
        filter: FilterNo,
    ) -> Result<u32, FeedFault>
        ensures ok { OnOk result (self.new
            ≡ subscribed user filter (L.lists lister.now user.0 filter.0) self.old) }
        ensures no { IfOk result (λ no. no ≡ self.new.made) }
        ensures room { OnOk result (full_fault self.old ≡ None) }
        ensures err { OnErr result (self.new ≡ self.old) }
        ensures fault { IfErr result (IsFault (full_fault self.old)) }
    {
        if self.list.len() >= MOST_FEEDS {
            return Err(FeedFault::Full);
        }
        let Some(no) = self.made.checked_add(1) else {
            return Err(FeedFault::Memory);
        };
        let Ok(feed) = Feed::begin(self.alloc, lister, no, user, filter) else {
            return Err(FeedFault::Memory);
        };
        let Ok(()) = self.list.push(feed) else {
            return Err(FeedFault::Memory);
        };
        self.made = no;
        Ok(no)
    }

    /// Takes an event in, which may have changed this: of each subscription that hasn't lapsed, what has gone out of its list is put out, and
    /// then what has come in. No list is asked for that can't have changed.
    pub fn after<L: Lister>(&mut self, lister: &L, changed: Changed) -> Result<(), Memory>
        requires { MayAllList changed (L.lists lister.now) self.old.feeds }
        ensures ok { OnOk result (self.new ≡ after_lists (L.lists lister.now) self.old) }
        ensures err { OnErr result (self.new ≡ self.old) }
    {
        after_each(&mut self.list, lister, changed)
    }

    /// Puts the moves of a subscription that wait and have a greater number, so many at most, in place of what `room` contained, and
    /// answers how many wait in all. It takes no memory.
    pub fn moves(
        &self,
        no: u32,
        user: UserNo,
        from: u64,
        count: usize,
        room: &mut Vec<Move>,
    ) -> Result<usize, FeedFault>
        requires { count ≤ vec_capacity room.old }
        ensures told { OnOk result (IfSome (feed_of no user.0 self.now)
            (λ f. room.new.items ≡ told from count f)) }
        ensures total { IfOk result (λ total. IfSome (feed_of no user.0 self.now)
            (λ f. total ≡ length f.waiting)) }
        ensures due { OnOk result (moves_fault (feed_of no user.0 self.now) ≡ None) }
        ensures fault { IfErr result (λ fault. moves_fault (feed_of no user.0 self.now) ≡ Some fault) }
    {
        let Some(feed) = feed_at(&self.list, no, user) else {
            return Err(FeedFault::NotThere);
        };
        if feed.is_lapsed() {
            return Err(FeedFault::Lapsed(feed.last()));
        }
        feed.put_told(from, count, room);
        Ok(feed.waiting())
    }

    /// Lets the moves of a subscription up to this number go, and answers how many wait then. It takes no memory.
    pub fn ack(&mut self, no: u32, user: UserNo, upto: u64) -> Result<usize, FeedFault>
        ensures ok { OnOk result (self.new ≡ with_acknowledged no user.0 upto self.old) }
        ensures kept { IfOk result (λ kept. IfSome (feed_of no user.0 self.new)
            (λ f. kept ≡ length f.waiting)) }
        ensures due { OnOk result (ack_fault upto (feed_of no user.0 self.old) ≡ None) }
        ensures err { OnErr result (self.new ≡ self.old) }
        ensures fault { IfErr result
            (λ fault. ack_fault upto (feed_of no user.0 self.old) ≡ Some fault) }
    {
        if let Some(fault) = ack_fault(feed_at(&self.list, no, user), upto) {
            return Err(fault);
        }
        Ok(acknowledge_first(&mut self.list, no, user, upto))
    }

    /// Ends a subscription. It takes no memory.
    pub fn unsubscribe(&mut self, no: u32, user: UserNo) -> Result<(), FeedFault>
        ensures ok { OnOk result (self.new ≡ without_feed no user.0 self.old) }
        ensures due { OnOk result (there_fault (feed_of no user.0 self.old) ≡ None) }
        ensures err { OnErr result (self.new ≡ self.old) }
        ensures fault { IfErr result
            (λ fault. there_fault (feed_of no user.0 self.old) ≡ Some fault) }
    {
        if feed_at(&self.list, no, user).is_none() {
            return Err(FeedFault::NotThere);
        }
        remove_first(&mut self.list, no, user);
        Ok(())
    }
}

// The user's subscription of that number.
fn feed_at(feeds: &[Feed], no: u32, user: UserNo) -> Option<&Feed>
    ensures { option_map (λ h. h.feed) (option_copied result)
        ≡ find (is_of no user.0) (feeds_of feeds.now) }
{
    match place_of(feeds, no, user) {
        Some(at) => Some(&feeds[at]),
        None => None,
    }
}

// Why moves up to this number can't be acknowledged, if they can't.
fn ack_fault(feed: Option<&Feed>, upto: u64) -> Option<FeedFault>
    ensures { result ≡ ack_fault upto (option_map (λ h. h.feed) (option_copied feed.entry)) }
{
    match feed {
        Some(feed) => own_fault(feed, upto),
        None => Some(FeedFault::NotThere),
    }
}

fn own_fault(feed: &Feed, upto: u64) -> Option<FeedFault>
    ensures { result ≡ ack_fault upto (Some feed.now.feed) }
{
    if feed.is_lapsed() {
        return Some(FeedFault::Lapsed(feed.last()));
    }
    if feed.last() < upto {
        return Some(FeedFault::Beyond(feed.last()));
    }
    None
}

// Lets the moves of the user's subscription of that number go up to one, and answers how many wait then.
fn acknowledge_first(feeds: &mut [Feed], no: u32, user: UserNo, upto: u64) -> usize
    requires { IfSome (find (is_of no user.0) (feeds_of feeds.old)) (λ f. upto ≤ last f) }
    ensures feeds { feeds_of feeds.new
        ≡ changed_first (is_of no user.0) (acknowledged upto) (feeds_of feeds.old) }
    ensures kept { IfSome (find (is_of no user.0) (feeds_of feeds.new))
        (λ f. result ≡ length f.waiting) }
{
    match place_of(feeds, no, user) {
        Some(at) => {
            let feed = &mut feeds[at];
            feed.acknowledge(upto);
            feed.waiting()
        }
        None => 0,
    }
}

// Ends the user's subscription of that number.
fn remove_first(feeds: &mut Vec<Feed>, no: u32, user: UserNo)
    ensures feeds { feeds_of feeds.new.items
        ≡ without_first (is_of no user.0) (feeds_of feeds.old.items) }
    ensures fewer { length feeds.new.items ≤ length feeds.old.items }
{
    if let Some(at) = place_of(feeds, no, user) {
        let _feed = feeds.remove(at);
    }
}

// The place of the user's subscription of that number.
fn place_of(feeds: &[Feed], no: u32, user: UserNo) -> Option<usize>
    ensures { result ≡ position (λ h. is_of no user.0 h.feed) feeds.now }
{
    feeds.iter().position(|feed| feed.is_of(no, user))
}
