//! An event, of each subscription: first all are made ready, which may want memory, and then all take it in.
ghost use Rattle.std.specs.Prelude.{◌≡◌, OnErr, OnOk, map};
ghost use Rattle.std.specs.List.{All};
ghost use Rattle.move_feeds.specs.Changed.{MayAllList};
ghost use Rattle.move_feeds.specs.Feed.{IsFeed, after_event};
ghost use Rattle.move_feeds.specs.Held.{AreReady, HaveRoomForOne, feeds_of, taken_in};
ghost use Rattle.list_changes.specs.declared.changed.Changed.TheVariants as changed;

use crate::feed::Feed;
use crate::lister::Lister;
use field_values::{FilterNo, Memory};
use list_changes::Changed;

/// What holds of each one: contracts may cite it.
pub(crate) fn are_feeds(feeds: &[Feed])
    ensures { All IsFeed (feeds_of feeds.now) }
{
    for feed in feeds {
        feed.is_feed();
    }
}

/// Has each one take an event in, which may have changed this. No list is asked for that can't have changed.
pub(crate) fn after_each<L: Lister>(
    feeds: &mut [Feed],
    lister: &L,
    changed: Changed,
) -> Result<(), Memory>
    requires { MayAllList changed (L.lists lister.now) (feeds_of feeds.old) }
    ensures ok { OnOk result (feeds_of feeds.new
        ≡ map (λ f. after_event (L.lists lister.now f.user.0 f.filter.0) f) (feeds_of feeds.old)) }
    ensures err { OnErr result (feeds_of feeds.new ≡ feeds_of feeds.old) }
{
    match changed {
        Changed::Nothing => {
            after_nothing(feeds, lister);
            Ok(())
        }
        Changed::Issue(place) => after_issue(feeds, lister, place),
        Changed::Filter(filter) => after_filter(feeds, lister, filter),
        Changed::Anything => after_any(feeds, lister),
    }
}

// An event that changed nothing leaves each one as it is.
fn after_nothing<L: Lister>(feeds: &[Feed], lister: &L)
    requires { MayAllList changed.Nothing (L.lists lister.now) (feeds_of feeds.now) }
    ensures { feeds_of feeds.now
        ≡ map (λ f. after_event (L.lists lister.now f.user.0 f.filter.0) f) (feeds_of feeds.now) }
{
    let _ = lister;
    are_feeds(feeds);
}

fn after_issue<L: Lister>(feeds: &mut [Feed], lister: &L, place: usize) -> Result<(), Memory>
    requires { MayAllList (changed.Issue place) (L.lists lister.now) (feeds_of feeds.old) }
    ensures ok { OnOk result (feeds_of feeds.new
        ≡ map (λ f. after_event (L.lists lister.now f.user.0 f.filter.0) f) (feeds_of feeds.old)) }
    ensures err { OnErr result (feeds_of feeds.new ≡ feeds_of feeds.old) }
{
    reserve_each(feeds)?;
    see_each(feeds, lister, place);
    Ok(())
}

fn after_filter<L: Lister>(feeds: &mut [Feed], lister: &L, filter: FilterNo) -> Result<(), Memory>
    requires { MayAllList (changed.Filter filter) (L.lists lister.now) (feeds_of feeds.old) }
    ensures ok { OnOk result (feeds_of feeds.new
        ≡ map (λ f. after_event (L.lists lister.now f.user.0 f.filter.0) f) (feeds_of feeds.old)) }
    ensures err { OnErr result (feeds_of feeds.new ≡ feeds_of feeds.old) }
{
    are_feeds(feeds);
    ready_each(feeds, lister, Some(filter))?;
    take_each(feeds, lister, Some(filter));
    Ok(())
}

fn after_any<L: Lister>(feeds: &mut [Feed], lister: &L) -> Result<(), Memory>
    ensures ok { OnOk result (feeds_of feeds.new
        ≡ map (λ f. after_event (L.lists lister.now f.user.0 f.filter.0) f) (feeds_of feeds.old)) }
    ensures err { OnErr result (feeds_of feeds.new ≡ feeds_of feeds.old) }
{
    ready_each(feeds, lister, None)?;
    take_each(feeds, lister, None);
    Ok(())
}

/// Makes each one that is concerned ready for what its filter lists now.
pub(crate) fn ready_each<L: Lister>(
    feeds: &mut [Feed],
    lister: &L,
    only: Option<FilterNo>,
) -> Result<(), Memory>
    ensures ready { OnOk result (AreReady only (L.lists lister.now) feeds.new) }
    ensures same { feeds_of feeds.new ≡ feeds_of feeds.old }
{
    for at in 0..feeds.len() {
        let feed = &mut feeds[at];
        feed.ready_if(lister, only)?;
    }
    Ok(())
}

/// Has each one that is concerned take the event in. It takes no memory.
pub(crate) fn take_each<L: Lister>(feeds: &mut [Feed], lister: &L, only: Option<FilterNo>)
    requires { AreReady only (L.lists lister.now) feeds.old }
    ensures { feeds_of feeds.new
        ≡ map (taken_in only (L.lists lister.now)) (feeds_of feeds.old) }
{
    for at in 0..feeds.len() {
        let feed = &mut feeds[at];
        feed.take_if(lister, only);
    }
}

/// Makes room in each one for one change and one issue more.
pub(crate) fn reserve_each(feeds: &mut [Feed]) -> Result<(), Memory>
    ensures room { OnOk result (HaveRoomForOne feeds.new) }
    ensures same { feeds_of feeds.new ≡ feeds_of feeds.old }
{
    for at in 0..feeds.len() {
        let feed = &mut feeds[at];
        feed.reserve_one()?;
    }
    Ok(())
}

/// Has each one see whether the issue at a place has come in or gone out, where no other one has. It takes no memory.
pub(crate) fn see_each<L: Lister>(feeds: &mut [Feed], lister: &L, place: usize)
    requires room { HaveRoomForOne feeds.old }
    requires one { MayAllList (changed.Issue place) (L.lists lister.now) (feeds_of feeds.old) }
    ensures { feeds_of feeds.new
        ≡ map (λ f. after_event (L.lists lister.now f.user.0 f.filter.0) f) (feeds_of feeds.old) }
{
    for at in 0..feeds.len() {
        let feed = &mut feeds[at];
        feed.see(lister, place);
    }
}
