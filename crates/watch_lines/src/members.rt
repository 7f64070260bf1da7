//! The members of a line's object.
ghost use Rattle.std.specs.Prelude.{◌≡◌, option_map, map};
ghost use Rattle.serde_json.specs.Find.{get, get_member};
ghost use Rattle.serde_json.specs.View.{members_view, view};
ghost use Rattle.call_lines.specs.Asked.{names_of, number_at};
ghost use Rattle.call_lines.specs.Taken.{object_of};
ghost use Rattle.json_texts.specs.JsonMembers.{text_at};
ghost use Rattle.watch_lines.specs.Asked.{count_of, first_other, from_of, kind_named, upto_of, watch_members, whole_in, whole_or};

use crate::watch::WatchKind;
use call_lines::is_among;
use serde_json::{Map, Value};

/// The greatest number of a move that is read.
const MOST_NUMBER: u64 = 9_007_199_254_740_991;

const SUBSCRIBE_MEMBERS: [&str; 3] = ["filter", "user", "watch"];

const FEED_MEMBERS: [&str; 5] = ["count", "from", "subscription", "user", "watch"];

const ACK_MEMBERS: [&str; 4] = ["subscription", "upto", "user", "watch"];

const UNSUBSCRIBE_MEMBERS: [&str; 3] = ["subscription", "user", "watch"];

/// The member of that name.
pub fn member<'v>(members: &'v Map<String, Value>, name: &str) -> Option<&'v Value>
    ensures { option_map (λ v. view v.now) result
        ≡ get_member name.now (members_view members.now.entries) }
{
    members.get(name)
}

/// The member of that name, where it is a text.
pub fn text_at<'v>(members: &'v Map<String, Value>, name: &str) -> Option<&'v str>
    ensures { option_map (λ text. text.now) result ≡ text_at name.now (object_of members.now) }
{
    member(members, name).and_then(Value::as_str)
}

/// The word of that name.
pub fn kind_named(name: &str) -> Option<WatchKind>
    ensures { result ≡ kind_named name.now }
{
    match name {
        "subscribe" => Some(WatchKind::Subscribe),
        "feed" => Some(WatchKind::Feed),
        "ack" => Some(WatchKind::Ack),
        "unsubscribe" => Some(WatchKind::Unsubscribe),
        _ => None,
    }
}

/// The number of a filter or of a subscription.
pub fn number_at(members: &Map<String, Value>, name: &str) -> Option<u32>
    ensures { result ≡ number_at name.now (object_of members.now) }
{
    let number = whole_in(member(members, name)?, 0, 4_294_967_295)?;
    Some(number as u32)
}

/// The member `from`, 0 where it is absent; `None` where it is out of range.
pub fn from_of(members: &Map<String, Value>) -> Option<u64>
    ensures { result ≡ from_of (object_of members.now) }
{
    whole_or(member(members, "from"), 0, 0, MOST_NUMBER)
}

/// The member `count`, 1,000 where it is absent; `None` where it is out of range.
pub fn count_of(members: &Map<String, Value>) -> Option<u64>
    ensures { result ≡ count_of (object_of members.now) }
{
    whole_or(member(members, "count"), 1_000, 1, 1_000)
}

/// The member `upto`; `None` where it is absent or out of range.
pub fn upto_of(members: &Map<String, Value>) -> Option<u64>
    ensures { result ≡ upto_of (object_of members.now) }
{
    whole_in(member(members, "upto")?, 0, MOST_NUMBER)
}

// A whole number between bounds.
fn whole_in(value: &Value, least: u64, most: u64) -> Option<u64>
    ensures { result ≡ whole_in least most (view value.now) }
{
    let number = value.as_u64()?;
    if least <= number && number <= most {
        return Some(number);
    }
    None
}

// The same of a member that may be absent, and then is that number.
fn whole_or(value: Option<&Value>, absent: u64, least: u64, most: u64) -> Option<u64>
    ensures { result ≡ whole_or absent least most (option_map (λ v. view v.now) value.entry) }
{
    match value {
        None => Some(absent),
        Some(value) => whole_in(value, least, most),
    }
}

/// The first name in byte order that is no member of such a line.
#[tactic(auto, using(call_lines::proofs::AskedLines::names_of_members))]
pub fn first_other<'v>(kind: WatchKind, members: &'v Map<String, Value>) -> Option<&'v str>
    ensures { option_map (λ name. name.now) result
        ≡ first_other kind (names_of (members_view members.now.entries)) }
{
    for name in members.keys() {
        if !is_among(name.as_str(), watch_members(kind)) {
            return Some(name.as_str());
        }
    }
    None
}

fn watch_members(kind: WatchKind) -> &'static [&'static str]
    ensures { map (λ name. name.now) result.now ≡ watch_members kind }
{
    match kind {
        WatchKind::Subscribe => &SUBSCRIBE_MEMBERS,
        WatchKind::Feed => &FEED_MEMBERS,
        WatchKind::Ack => &ACK_MEMBERS,
        WatchKind::Unsubscribe => &UNSUBSCRIBE_MEMBERS,
    }
}
