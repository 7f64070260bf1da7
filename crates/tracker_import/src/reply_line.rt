// The line of a reply.
ghost use Rattle.std.specs.Prelude.{◌≡◌, ◌++◌, ◌∷◌, [], OnOk};
ghost use Rattle.tracker_runs.specs.Run.{reply_line};

use reply_texts::{KEEPER_TEXT, MEMORY_TEXT, reply_bytes};
use std::alloc::{AllocError, Global};
use std::mem;
use tracker_calls::{Refusal, Reply};

/// Puts a reply's text and a line feed in place of what `answer` held. The refusals for want of memory
/// and of a keeper that failed are copied from their constants, so that they find room where the
/// answer had some before.
pub fn put_reply_line(alloc: Global, reply: &Reply, answer: &mut Vec<u8>) -> Result<(), AllocError>
    ensures { OnOk result (answer.new.items ≡ reply_line reply.now) }
{
    if let Reply::Refused(Refusal::Memory) = reply {
        return put_line(MEMORY_TEXT, answer);
    }
    if let Reply::Refused(Refusal::Keeper) = reply {
        return put_line(KEEPER_TEXT, answer);
    }
    put_text(alloc, reply, answer)
}

// Writes a reply's text and a line feed into the answer's room, in place of what it held.
fn put_text(alloc: Global, reply: &Reply, answer: &mut Vec<u8>) -> Result<(), AllocError>
    ensures { OnOk result (answer.new.items ≡ reply_line reply.now) }
{
    let room = mem::replace(answer, Vec::new(alloc));
    let Ok(bytes) = reply_bytes(alloc, reply, room) else {
        return Err(AllocError);
    };
    *answer = bytes;
    answer.push(b'\n')?;
    Ok(())
}

fn put_line(text: &str, answer: &mut Vec<u8>) -> Result<(), AllocError>
    ensures { OnOk result (answer.new.items ≡ text.now ++ 10 ∷ []) }
{
    answer.clear();
    answer.extend_from_slice(text.as_bytes())?;
    answer.push(b'\n')?;
    Ok(())
}
