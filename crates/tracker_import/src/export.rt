// All issues as CSV.
ghost use Rattle.std.specs.Prelude.{◌≡◌, ◌≤◌, ◌<◌, ◌+◌, ◌++◌, ℕ, slice_get, option_map, IfSome, OnOk, OnErr};
ghost use Rattle.rising_numbers.specs.ByNumber.{RiseFrom};
ghost use Rattle.external_ids.specs.Ids.{external_number};
ghost use Rattle.fields.specs.SetupParts.{names_in};
ghost use Rattle.request_lines.specs.Bytes.{WritesAll};
ghost use Rattle.request_lines.specs.Causes.{HasCause, Rose};
ghost use Rattle.issue_csv.specs.Writing.{issue_text};
ghost use Rattle.tracker_import.specs.Import.{IsHaltCause};
ghost use Rattle.tracker_import.specs.Export.{EndsExport, PassesOn, export_text, external_at, issues_text};

use crate::halt::Halt;
use external_ids::ExternalId;
use fields::Memory;
use issue_csv::{write_header, write_issue};
use request_lines::{Failed, Sink, write_all};
use std::alloc::Global;
use tracker_core::{Desk, State};
use tracker_keeper::Keeper;

/// As many bytes are written at a time, or a little more.
const PIECE: usize = 8_192;

/// How an export ends.
#[derive(Clone, Copy, Debug, PartialEq, Eq)]
pub enum ExportEnd {
    /// All issues were written.
    Done,

    /// The sink failed.
    WriteFault,

    /// There was not enough memory.
    Memory,
}

/// Writes all issues as CSV by their numbers, some kilobytes at a time.
pub fn export_rows<P: Keeper + Drop, T: Sink>(
    alloc: Global,
    desk: &Desk<P>,
    out: &mut T,
) -> ExportEnd
    ensures run { EndsExport (export_text desk.now.machine)
        (T.taken out.old) (T.taken out.new) result }
    ensures write_cause { result ≡ ExportEnd.WriteFault →
        Rose (T.faults out.old) (T.faults out.new) }
    ensures write_later { T.faults out.old ≤ T.faults out.new }
{
    let mut pending = Vec::new(alloc);
    let Ok(()) = write_header(alloc, &mut pending) else {
        return ExportEnd::Memory;
    };
    match export_issues(alloc, desk.state(), &mut pending, out) {
        Ok(()) => ExportEnd::Done,
        Err(Halt::Write) => ExportEnd::WriteFault,
        Err(Halt::Memory) => ExportEnd::Memory,
    }
}

// Writes what is pending, and then the records of all issues.
fn export_issues<T: Sink>(
    alloc: Global,
    state: &State,
    pending: &mut Vec<u8>,
    out: &mut T,
) -> Result<(), Halt>
    ensures bytes { WritesAll (T.taken out.old) (T.taken out.new) result (pending.old.items
        ++ issues_text (names_in state.now.machine.setup) state.now.machine.externals
        state.now.machine.histories) }
    ensures later { T.faults out.old ≤ T.faults out.new }
    ensures cause { IsHaltCause (T.faults out.old) (T.faults out.new) result }
{
    state.is_tracker();
    state.externals().are_own();
    let mut ids = state.externals().as_slice();
    for place in 0..state.issue_count() {
        let (external, behind) = take_external(ids, place as u32 + 1);
        let Ok(()) = put_issue(alloc, state, place, external, pending) else {
            return Err(Halt::Memory);
        };
        let Ok(()) = pass_on(pending, out) else {
            return Err(Halt::Write);
        };
        ids = behind;
    }
    match write_all(out, pending) {
        Ok(()) => Ok(()),
        Err(Failed) => Err(Halt::Write),
    }
}

// The external id of the issue of that number, if it has one, where these are of issues from that
// number on; and those of the issues behind it.
fn take_external<'a>(ids: &'a [ExternalId], number: u32) -> (Option<&'a str>, &'a [ExternalId])
    requires { RiseFrom external_number number ids.now }
    ensures id { option_map (λ id. id.now) result.0 ≡ external_at ids.now number }
    ensures rising { RiseFrom external_number (number + 1) result.1.now }
    ensures behind { (n : ℕ) → number < n →
        external_at result.1.now n ≡ external_at ids.now n }
{
    match ids.split_first() {
        Some((first, rest)) => {
            if first.no.0 == number {
                (Some(first.id.as_str()), rest)
            } else {
                (None, ids)
            }
        }
        None => (None, ids),
    }
}

// Puts the record of the issue at a place behind what is pending.
fn put_issue(
    alloc: Global,
    state: &State,
    place: usize,
    external: Option<&str>,
    pending: &mut Vec<u8>,
) -> Result<(), Memory>
    ensures ok { OnOk result (IfSome (slice_get state.now.machine.histories place) (λ h.
        pending.new.items ≡ pending.old.items ++ issue_text (names_in state.now.machine.setup) h
        (option_map (λ id. id.now) external.entry))) }
    ensures err { OnErr result (pending.new.items ≡ pending.old.items) }
{
    match state.issue_at(place) {
        Some(issue) => write_issue(alloc, state.setup(), issue, external, pending),
        None => Ok(()),
    }
}

// Writes what is pending, where that is a piece.
fn pass_on<T: Sink>(pending: &mut Vec<u8>, out: &mut T) -> Result<(), Failed>
    ensures bytes { PassesOn (T.taken out.old)
        (T.taken out.new) pending.old.items pending.new.items result }
    ensures cause { HasCause (T.faults out.old) (T.faults out.new) result }
{
    if pending.len() < PIECE {
        return Ok(());
    }
    write_all(out, pending)?;
    pending.clear();
    Ok(())
}
