//! The text of a reply: compact JSON, the members of each object in byte order of their names.
ghost use Rattle.std.specs.Prelude.{◌≡◌, ◌∷◌, [], IfOk, OnOk, map};
ghost use Rattle.serde_json.specs.Data.{array, member, no_members, object};
ghost use Rattle.serde_json.specs.View.{items_of};
ghost use Rattle.json_texts.specs.JsonData.{natural};
ghost use Rattle.json_texts.specs.JsonTokens.{after};
ghost use Rattle.watch_lines.specs.Reply.{answer_data, feed_data, full_data, kept_data, last_data, move_data, reply_data, subscription_data, refused_data, unknown_data, watch_text};

use crate::reply::{ToldMove, WatchAnswer, WatchRefusal, WatchReply};
use field_values::Memory;
use json_texts::JsonText;
use reply_texts::reply_bytes;
use std::alloc::Global;

/// The text of a reply, in the room of these bytes, which it takes the place of.
#[tactic(auto, unfolding(crate::specs::Reply::watch_text, reply_texts::specs::Reply::reply_text))]
pub fn watch_bytes(alloc: Global, reply: &WatchReply, room: Vec<u8>) -> Result<Vec<u8>, Memory>
    ensures { IfOk result (λ bytes. bytes.items ≡ watch_text reply.now) }
{
    match reply {
        WatchReply::Plain(reply) => reply_bytes(alloc, reply, room),
        _ => own_bytes(alloc, reply, room),
    }
}

// The same of a reply that no call has.
#[tactic(auto, unfolding(crate::specs::Reply::watch_text), using(json_texts::proofs::JsonTexts::whole))]
fn own_bytes(alloc: Global, reply: &WatchReply, room: Vec<u8>) -> Result<Vec<u8>, Memory>
    ensures { IfOk result (λ bytes. bytes.items ≡ watch_text reply.now) }
{
    let mut text = JsonText::in_room(alloc, room);
    write_reply(alloc, &mut text, reply)?;
    Ok(text.into_bytes())
}

fn write_reply(alloc: Global, out: &mut JsonText, reply: &WatchReply) -> Result<(), Memory>
    ensures { OnOk result (out.new ≡ after (reply_data reply.now) out.old) }
{
    match reply {
        WatchReply::Ok(answer) => write_ok(out, answer),
        WatchReply::Refused(refusal) => write_refused(alloc, out, *refusal),
        WatchReply::Plain(_) => Err(Memory),
    }
}

fn write_ok(out: &mut JsonText, answer: &WatchAnswer) -> Result<(), Memory>
    ensures { OnOk result (out.new ≡ after (reply_data (WatchReply.Ok answer.now)) out.old) }
{
    out.begin_object()?;
    out.key("ok")?;
    write_answer(out, answer)?;
    out.end_object()
}

fn write_answer(out: &mut JsonText, answer: &WatchAnswer) -> Result<(), Memory>
    ensures { OnOk result (out.new ≡ after (answer_data answer.now) out.old) }
{
    match answer {
        WatchAnswer::Subscribe { subscription } | WatchAnswer::Unsubscribe { subscription } => {
            write_number(out, "subscription", u64::from(*subscription))
        }
        WatchAnswer::Feed { moves, total } => write_feed(out, moves.as_slice(), *total),
        WatchAnswer::Ack { kept } => write_number(out, "kept", *kept),
    }
}

// An object of one number.
fn write_number(out: &mut JsonText, name: &str, number: u64) -> Result<(), Memory>
    ensures { OnOk result (out.new
        ≡ after (object (member name.now (natural number) no_members)) out.old) }
{
    out.begin_object()?;
    out.number_member(name, number)?;
    out.end_object()
}

fn write_feed(out: &mut JsonText, moves: &[ToldMove], total: u64) -> Result<(), Memory>
    ensures { OnOk result (out.new ≡ after (feed_data moves.now total) out.old) }
{
    out.begin_object()?;
    out.key("moves")?;
    write_moves(out, moves)?;
    out.number_member("total", total)?;
    out.end_object()
}

fn write_moves(out: &mut JsonText, moves: &[ToldMove]) -> Result<(), Memory>
    ensures { OnOk result (out.new
        ≡ after (array (items_of (map move_data moves.now))) out.old) }
{
    out.begin_array()?;
    for told in moves {
        write_move(out, told)?;
    }
    out.end_array()
}

fn write_move(out: &mut JsonText, told: &ToldMove) -> Result<(), Memory>
    ensures { OnOk result (out.new ≡ after (move_data told.now) out.old) }
{
    out.begin_array()?;
    out.number(told.number)?;
    out.text(if told.entered { "enter" } else { "exit" })?;
    out.text(told.issue.as_str())?;
    out.end_array()
}

fn write_refused(alloc: Global, out: &mut JsonText, refusal: WatchRefusal) -> Result<(), Memory>
    ensures { OnOk result (out.new ≡ after (reply_data (WatchReply.Refused refusal)) out.old) }
{
    out.begin_object()?;
    out.key("refused")?;
    write_refusal(alloc, out, refusal)?;
    out.end_object()
}

fn write_refusal(alloc: Global, out: &mut JsonText, refusal: WatchRefusal) -> Result<(), Memory>
    ensures { OnOk result (out.new ≡ after (refused_data refusal) out.old) }
{
    match refusal {
        WatchRefusal::NotThere(subscription) => write_unknown(alloc, out, subscription),
        WatchRefusal::Full => write_full(out),
        WatchRefusal::Lapsed(last) => write_last(out, last, 16),
        WatchRefusal::Beyond(last) => write_last(out, last, 17),
    }
}

fn write_unknown(alloc: Global, out: &mut JsonText, subscription: u32) -> Result<(), Memory>
    ensures { OnOk result (out.new ≡ after (unknown_data subscription) out.old) }
{
    let digits = format!(in alloc; "{subscription}")?;
    out.begin_object()?;
    out.text_member("kind", "subscription")?;
    out.text_member("name", digits.as_str())?;
    out.number_member("no", 2)?;
    out.end_object()
}

fn write_full(out: &mut JsonText) -> Result<(), Memory>
    ensures { OnOk result (out.new ≡ after full_data out.old) }
{
    out.begin_object()?;
    out.text_member("limit", "subscriptions")?;
    out.number_member("no", 10)?;
    out.number_member("number", 100)?;
    out.end_object()
}

fn write_last(out: &mut JsonText, last: u64, number: u64) -> Result<(), Memory>
    ensures { OnOk result (out.new ≡ after (last_data last number) out.old) }
{
    out.begin_object()?;
    out.number_member("last", last)?;
    out.number_member("no", number)?;
    out.end_object()
}
