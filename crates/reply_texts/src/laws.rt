ghost use Rattle.std.specs.Prelude.{◌≡◌, codes};
ghost use Rattle.reply_texts.specs.Reply.{reply_text};

use tracker_calls::{Refusal, Reply};

/// No other reply has the text of the refusal for want of memory, so that the marks of a run can be read off its output.
pub fn memory_text_is_its_own(reply: &Reply)
    ensures { reply_text reply.now ≡ codes "{\"refused\":{\"no\":15}}" →
        reply.now ≡ Reply.Refused Refusal.Memory }
{
    let _ = reply;
}

/// And no other reply has the text of the refusal of a keeper that failed.
pub fn keeper_text_is_its_own(reply: &Reply)
    ensures { reply_text reply.now ≡ codes "{\"refused\":{\"no\":14}}" →
        reply.now ≡ Reply.Refused Refusal.Keeper }
{
    let _ = reply;
}
