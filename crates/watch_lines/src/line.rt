//! A line that comes in.
ghost use Rattle.std.specs.Prelude.{◌≡◌, Some, option_and_then};
ghost use Rattle.serde_json.specs.Find.{as_object};
ghost use Rattle.serde_json.specs.View.{members_view, view};
ghost use Rattle.call_lines.specs.Asked.{UnlessMemory};
ghost use Rattle.call_lines.specs.Taken.{object_of};
ghost use Rattle.watch_lines.specs.Asked.{AsksWatch, asked_by, is_watch, watch_in, watch_line, watch_of};

use crate::members::{
    count_of, first_other, from_of, kind_named, member, number_at, text_at, upto_of,
};
use crate::watch::{Watch, WatchKind};
use call_lines::misses;
use field_values::FilterNo;
use serde_json::{Map, Value};
use std::alloc::Global;
use std::str;
use tracker_calls::{Refusal, UserName};

/// Who asks for what about a subscription, or the first fault of the line's form; `None` where the line isn't one about a
/// subscription, as it has no `watch`, or a `call` beside it.
pub fn read_watch(alloc: Global, bytes: &[u8]) -> Result<Option<(UserName, Watch)>, Refusal>
    ensures { AsksWatch result (watch_line bytes.now) }
{
    match str::from_utf8(bytes) {
        Ok(text) => read_text(alloc, text),
        Err(_) => Ok(None),
    }
}

fn read_text(alloc: Global, text: &str) -> Result<Option<(UserName, Watch)>, Refusal>
    ensures { AsksWatch result (watch_line text.now) }
{
    match Value::from_str(alloc, text) {
        Ok(value) => watch_in(alloc, &value),
        Err(e) => {
            if e.is_memory() {
                Err(Refusal::Memory)
            } else {
                Ok(None)
            }
        }
    }
}

fn watch_in(alloc: Global, value: &Value) -> Result<Option<(UserName, Watch)>, Refusal>
    ensures { AsksWatch result (option_and_then (watch_in (view value.now))
        (as_object (view value.now))) }
{
    let Value::Object(members) = value else {
        return Ok(None);
    };
    if !is_watch(members) {
        return Ok(None);
    }
    match watch_of(alloc, members) {
        Ok(asked) => Ok(Some(asked)),
        Err(refusal) => Err(refusal),
    }
}

fn is_watch(members: &Map<String, Value>) -> bool
    ensures { result ≡ is_watch (object_of members.now) }
{
    member(members, "watch").is_some() && member(members, "call").is_none()
}

fn watch_of(alloc: Global, members: &Map<String, Value>) -> Result<(UserName, Watch), Refusal>
    ensures { UnlessMemory result (watch_of (object_of members.now)
        (members_view members.now.entries)) }
{
    let Some(user) = text_at(members, "user") else {
        return misses(alloc, "user");
    };
    let Some(kind) = text_at(members, "watch").and_then(kind_named) else {
        return misses(alloc, "watch");
    };
    let watch = asked_by(alloc, kind, members)?;
    let user = UserName::copy_of(alloc, user)?;
    Ok((user, watch))
}

// What is asked for, or the first fault of its members.
fn asked_by(alloc: Global, kind: WatchKind, members: &Map<String, Value>) -> Result<Watch, Refusal>
    ensures { UnlessMemory result (asked_by kind (object_of members.now)
        (members_view members.now.entries)) }
{
    match kind {
        WatchKind::Subscribe => subscribe_of(alloc, members),
        WatchKind::Feed => feed_of(alloc, members),
        WatchKind::Ack => ack_of(alloc, members),
        WatchKind::Unsubscribe => unsubscribe_of(alloc, members),
    }
}

fn subscribe_of(alloc: Global, members: &Map<String, Value>) -> Result<Watch, Refusal>
    ensures { UnlessMemory result (asked_by WatchKind.Subscribe (object_of members.now)
        (members_view members.now.entries)) }
{
    let Some(filter) = number_at(members, "filter") else {
        return misses(alloc, "filter");
    };
    if let Some(other) = first_other(WatchKind::Subscribe, members) {
        return misses(alloc, other);
    }
    Ok(Watch::Subscribe {
        filter: FilterNo(filter),
    })
}

fn feed_of(alloc: Global, members: &Map<String, Value>) -> Result<Watch, Refusal>
    ensures { UnlessMemory result (asked_by WatchKind.Feed (object_of members.now)
        (members_view members.now.entries)) }
{
    let Some(subscription) = number_at(members, "subscription") else {
        return misses(alloc, "subscription");
    };
    let Some(from) = from_of(members) else {
        return misses(alloc, "from");
    };
    let Some(count) = count_of(members) else {
        return misses(alloc, "count");
    };
    if let Some(other) = first_other(WatchKind::Feed, members) {
        return misses(alloc, other);
    }
    Ok(Watch::Feed {
        subscription,
        from,
        count,
    })
}

fn ack_of(alloc: Global, members: &Map<String, Value>) -> Result<Watch, Refusal>
    ensures { UnlessMemory result (asked_by WatchKind.Ack (object_of members.now)
        (members_view members.now.entries)) }
{
    let Some(subscription) = number_at(members, "subscription") else {
        return misses(alloc, "subscription");
    };
    let Some(upto) = upto_of(members) else {
        return misses(alloc, "upto");
    };
    if let Some(other) = first_other(WatchKind::Ack, members) {
        return misses(alloc, other);
    }
    Ok(Watch::Ack { subscription, upto })
}

fn unsubscribe_of(alloc: Global, members: &Map<String, Value>) -> Result<Watch, Refusal>
    ensures { UnlessMemory result (asked_by WatchKind.Unsubscribe (object_of members.now)
        (members_view members.now.entries)) }
{
    let Some(subscription) = number_at(members, "subscription") else {
        return misses(alloc, "subscription");
    };
    if let Some(other) = first_other(WatchKind::Unsubscribe, members) {
        return misses(alloc, other);
    }
    Ok(Watch::Unsubscribe { subscription })
}
