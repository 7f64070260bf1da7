// The loop over lines.
ghost use Rattle.std.specs.Prelude.{◌≡◌, ◌⊎◌, ◌≤◌, ◌++◌, ◌∷◌, [], List, ℕ, Option, OnOk, OnErr, IfSome};
ghost use Rattle.request_lines.specs.Causes.{Rose};
ghost use Rattle.request_lines.specs.Lines.{AreWithinLimits};
ghost use Rattle.request_lines.specs.Run.{Ends, HasAnswered, IsCutShort, IsFinished, IsWriteCause, Serves};

use crate::limits::LINES_LIMIT;
use crate::outside::{Failed, Sink, Source};
use crate::reader::{LineReader, Next};
use crate::responder::{Looked, Responder};
use crate::waiting::{WAITING_ROOM, keep, send, send_unless_line};
use crate::write::write_all;
use std::alloc::{AllocError, Global};

/// Room for an answer that is made from the start, so that a short answer finds it later.
const ANSWER_ROOM: usize = 4_096;

/// How a run over lines ends.
#[derive(Clone, Copy, PartialEq, Eq)]
pub enum End {
    /// The input was read to its end.
    Done,

    /// The source failed.
    ReadFault,

    /// The sink failed.
    WriteFault,

    /// There was not enough memory.
    Memory,

    /// A line passed its limit.
    LongLine,

    /// The number of lines passed its limit.
    ManyLines,
}

/// Why a line has no whole answer.
#[derive(Clone, Copy, PartialEq, Eq)]
pub enum Halt {
    /// The sink failed.
    Write,

    /// There was not enough memory for the answer's text.
    Memory,
}

/// Has each line of the input answered, one after another. Each answer is written before the next change is made and before more
/// is read.
pub fn answer_lines<R: Responder, S: Source, T: Sink>(
    alloc: Global,
    responder: &mut R,
    input: &mut S,
    out: &mut T,
) -> End
    ensures run { IfSome (S.left input.old)
        (λ bytes. Ends R.answers responder.old bytes (S.left input.new) (T.taken out.old)
        (T.taken out.new) result responder.new) }
    ensures read_cause { result ≡ End.ReadFault → Rose (S.faults input.old) (S.faults input.new) }
    ensures write_cause { result ≡ End.WriteFault → Rose (T.faults out.old) (T.faults out.new) }
    ensures read_later { S.faults input.old ≤ S.faults input.new }
    ensures write_later { T.faults out.old ≤ T.faults out.new }
{
    let Ok(mut reader) = LineReader::new(alloc) else {
        return End::Memory;
    };
    let Ok(mut answer) = Vec::with_capacity(alloc, ANSWER_ROOM) else {
        return End::Memory;
    };
    let Ok(mut waiting) = Vec::with_capacity(alloc, WAITING_ROOM) else {
        return End::Memory;
    };
    let mut line = Vec::new(alloc);
    answer_each(
        responder,
        &mut reader,
        &mut line,
        &mut answer,
        &mut waiting,
        input,
        out,
    )
}

// The same with a reader that holds nothing yet, and with rooms for a line, for an answer and for answers that wait, of which there
// is none yet.
fn answer_each<R: Responder, S: Source, T: Sink>(
    responder: &mut R,
    reader: &mut LineReader,
    line: &mut Vec<u8>,
    answer: &mut Vec<u8>,
    waiting: &mut Vec<u8>,
    input: &mut S,
    out: &mut T,
) -> End
    // Nothing was read yet, and no answer waits.
    requires unread { reader.old ≡ [] }
    requires none { waiting.old.items ≡ [] }
    // Where it is known what the source has left: lines were answered in order, and how it ended
    // says up to which.
    ensures run { IfSome (S.left input.old)
        (λ bytes. Ends R.answers responder.old bytes (S.left input.new) (T.taken out.old)
        (T.taken out.new) result responder.new) }
    // It ends with a failure only where source or sink had one.
    ensures read_cause { result ≡ End.ReadFault → Rose (S.faults input.old) (S.faults input.new) }
    ensures write_cause { result ≡ End.WriteFault → Rose (T.faults out.old) (T.faults out.new) }
    ensures read_later { S.faults input.old ≤ S.faults input.new }
    ensures write_later { T.faults out.old ≤ T.faults out.new }
{
    for _count in 0..LINES_LIMIT {
        match send_unless_line(reader, waiting, out) {
            Ok(()) => {}
            Err(Failed) => return End::WriteFault,
        }
        match reader.next_line(input, line) {
            Next::Line => match answer_line(responder, line, answer, waiting, out) {
                Ok(()) => {}
                Err(Halt::Write) => return End::WriteFault,
                Err(Halt::Memory) => return End::Memory,
            },
            Next::Last => match answer_line(responder, line, answer, waiting, out) {
                Ok(()) => return finish(waiting, out, End::Done),
                Err(Halt::Write) => return End::WriteFault,
                Err(Halt::Memory) => return End::Memory,
            },
            Next::End => return finish(waiting, out, End::Done),
            Next::TooLong => return finish(waiting, out, End::LongLine),
            Next::Failed => return finish(waiting, out, End::ReadFault),
            Next::Memory => return finish(waiting, out, End::Memory),
        }
    }
    match send(waiting, out) {
        Ok(()) => {}
        Err(Failed) => return End::WriteFault,
    }
    match reader.fill(input) {
        Ok(false) => End::Done,
        Ok(true) => End::ManyLines,
        Err(Failed) => End::ReadFault,
    }
}

// Has a line answered behind the lines that were answered before.
fn answer_line<R: Responder, T: Sink>(
    responder: &mut R,
    line: &[u8],
    answer: &mut Vec<u8>,
    waiting: &mut Vec<u8>,
    out: &mut T,
) -> Result<(), Halt>
    ensures ok { (first : R) (all : List (List ℕ)) (start : Option (List ℕ))
        → HasAnswered R.answers first all start (T.taken out.old) waiting.old.items responder.old
        → OnOk result (HasAnswered R.answers first (all ++ line.now ∷ []) start (T.taken out.new)
        waiting.new.items responder.new) }
    ensures err { (first : R) (all rest : List (List ℕ)) (start : Option (List ℕ))
        → HasAnswered R.answers first all start (T.taken out.old) waiting.old.items responder.old
        → AreWithinLimits (all ++ line.now ∷ [])
        → OnErr result (IsCutShort R.answers first (all ++ line.now ∷ rest) start
        (T.taken out.new) responder.new) }
    ensures later { T.faults out.old ≤ T.faults out.new }
    ensures cause { IsWriteCause (T.faults out.old) (T.faults out.new) result }
{
    match responder.look(line, answer) {
        Ok(Looked::Answered) => match keep(answer, waiting, out) {
            Ok(()) => Ok(()),
            Err(Failed) => Err(Halt::Write),
        },
        Ok(Looked::Asks(change)) => match send(waiting, out) {
            Ok(()) => make(responder, change, answer, out),
            Err(Failed) => Err(Halt::Write),
        },
        Err(AllocError) => match send(waiting, out) {
            Ok(()) => Err(Halt::Memory),
            Err(Failed) => Err(Halt::Write),
        },
    }
}

// Makes a change, and writes its answer at once.
fn make<R: Responder, T: Sink>(
    responder: &mut R,
    change: R::Change,
    answer: &mut Vec<u8>,
    out: &mut T,
) -> Result<(), Halt>
    ensures run { (line : List ℕ) → R.asks line change
        → Serves R.answers responder.old line (T.taken out.old) (T.taken out.new) result responder.new }
    ensures later { T.faults out.old ≤ T.faults out.new }
    ensures cause { IsWriteCause (T.faults out.old) (T.faults out.new) result }
{
    let Ok(()) = responder.make(change, answer) else {
        return Err(Halt::Memory);
    };
    match write_all(out, answer) {
        Ok(()) => Ok(()),
        Err(Failed) => Err(Halt::Write),
    }
}

// Writes what waits at the end of a run, which ends in that way unless the sink fails.
fn finish<T: Sink>(waiting: &mut Vec<u8>, out: &mut T, end: End) -> End
    ensures run { IsFinished (T.taken out.old) (T.taken out.new) waiting.old.items end result }
    ensures ends { (result ≡ end) ⊎ (result ≡ End.WriteFault) }
    ensures cause { (result ≡ end) ⊎ Rose (T.faults out.old) (T.faults out.new) }
    ensures later { T.faults out.old ≤ T.faults out.new }
{
    match send(waiting, out) {
        Ok(()) => end,
        Err(Failed) => End::WriteFault,
    }
}
