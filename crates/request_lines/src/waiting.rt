// Answers that change nothing wait, so that many are written at once. They are written before a change is made and before more is
// read: so at no time is there a change behind an answer that isn't written, and whoever waits for an answer gets it.
ghost use Rattle.std.specs.Prelude.{◌≡◌, ◌++◌, [], OnOk};
ghost use Rattle.std.specs.Bool.{MatchBool};
ghost use Rattle.request_lines.specs.Bytes.{WritesAll, Passes};
ghost use Rattle.request_lines.specs.Causes.{HasCause};

use crate::outside::{Failed, Sink};
use crate::reader::LineReader;
use crate::write::write_all;

/// Room for the answers that wait. A longer one doesn't.
pub const WAITING_ROOM: usize = 16_384;

/// Writes what waits.
pub fn send<T: Sink>(waiting: &mut Vec<u8>, out: &mut T) -> Result<(), Failed>
    ensures bytes { WritesAll (T.taken out.old) (T.taken out.new) result waiting.old.items }
    ensures none { OnOk result (waiting.new.items ≡ []) }
    ensures cause { HasCause (T.faults out.old) (T.faults out.new) result }
{
    write_all(out, waiting)?;
    waiting.clear();
    Ok(())
}

/// Writes what waits, unless a whole line is at hand.
pub fn send_unless_line<T: Sink>(
    reader: &LineReader,
    waiting: &mut Vec<u8>,
    out: &mut T,
) -> Result<(), Failed>
    ensures bytes { Passes (T.taken out.old) (T.taken out.new) waiting.old.items
        waiting.new.items result }
    ensures cause { HasCause (T.faults out.old) (T.faults out.new) result }
{
    if waiting.is_empty() || reader.has_line() {
        return Ok(());
    }
    send(waiting, out)
}

/// Has an answer wait behind the others, or writes them all where there is no room.
pub fn keep<T: Sink>(answer: &[u8], waiting: &mut Vec<u8>, out: &mut T) -> Result<(), Failed>
    ensures bytes { Passes (T.taken out.old) (T.taken out.new) (waiting.old.items ++ answer.now)
        waiting.new.items result }
    ensures cause { HasCause (T.faults out.old) (T.faults out.new) result }
{
    if joins(answer, waiting) {
        return Ok(());
    }
    match send(waiting, out) {
        Ok(()) => write_all(out, answer),
        Err(Failed) => Err(Failed),
    }
}

// Puts an answer behind the others where there is room, and says whether there was.
fn joins(answer: &[u8], waiting: &mut Vec<u8>) -> bool
    ensures { MatchBool result (waiting.new.items ≡ waiting.old.items ++ answer.now)
        (waiting.new.items ≡ waiting.old.items) }
{
    if waiting.len().saturating_add(answer.len()) > WAITING_ROOM {
        return false;
    }
    match waiting.extend_from_slice(answer) {
        Ok(()) => true,
        Err(_) => false,
    }
}
