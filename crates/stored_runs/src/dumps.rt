//! Dumps of the rows that request lines leave in a new tracker, and what restores them.
use crate::requests::reply_to_line;
use field_values::Steps;
use fields::Setup;
use request_lines::{MemorySink, MemorySource};
use std::alloc::Global;
use std::str;
use std::sync::ledger::Ledger;
use tracker_backup::back_up;
use tracker_core::Desk;
use tracker_keeper::NeverFails;

/// The bytes that a dump may have here.
const ROOM: usize = 100_000;

/// The dump of what a line's requests leave in a new tracker, with that of what restores it behind it where this is another one. `restore`
/// and its status stand in its place where nothing is restored.
pub fn dump_reply<L: Ledger>(alloc: Global, line: &[u8], steps: &mut Steps<L>) -> Option<String> {
    let requests = str::from_utf8(line).ok()?;
    let setup = Setup::built_in(alloc).ok()?;
    let mut desk = Desk::create(alloc, no_rows(alloc)?, setup).ok()?;
    for request in requests.split('\t') {
        reply_to_line(alloc, &mut desk, request.as_bytes(), steps)?;
    }
    let (_, dump, _) = backed_up(alloc, "dump", b"", desk.close())?;
    let (status, _, keeper) = backed_up(alloc, "restore", dump.as_slice(), no_rows(alloc)?)?;
    let (_, again, _) = backed_up(alloc, "dump", b"", keeper)?;
    told(alloc, &dump, status, &again)
}

fn told(alloc: Global, dump: &[u8], status: u8, again: &[u8]) -> Option<String> {
    let text = String::from_utf8_lossy(alloc, dump).ok()?;
    if status != 0 {
        return format!(in alloc; "{text}restore {status}").ok();
    }
    if dump == again {
        return format!(in alloc; "{text}restored").ok();
    }
    let other = String::from_utf8_lossy(alloc, again).ok()?;
    format!(in alloc; "{text}restored as\n{other}").ok()
}

fn no_rows(alloc: Global) -> Option<NeverFails> {
    NeverFails::new(alloc, &[]).ok()
}

// The status and the output of a word over an input, and the keeper, which is handed back.
fn backed_up(
    alloc: Global,
    word: &str,
    input: &[u8],
    keeper: NeverFails,
) -> Option<(u8, Vec<u8>, NeverFails)> {
    let mut words = Vec::new(alloc);
    words.push(String::from_str(alloc, word).ok()?).ok()?;
    let mut source = MemorySource::new(input.to_vec(alloc).ok()?, Vec::new(alloc), Vec::new(alloc));
    let mut sink = MemorySink::new(alloc, ROOM, Vec::new(alloc)).ok()?;
    let (status, keeper) = back_up(alloc, &words, &mut source, &mut sink, keeper);
    Some((status, sink.taken().to_vec(alloc).ok()?, keeper))
}
