// The call `history`: a part of an issue's entries.
ghost use Rattle.std.specs.Prelude.{◌≡◌, length, IfOk, map};
ghost use Rattle.fields.specs.SetupParts.{parts, names_in};
ghost use Rattle.tracker_calls.specs.Part.{part_of};
ghost use Rattle.tracker_machine.specs.Known.{history_named};
ghost use Rattle.tracker_state.specs.Plan.{IsPrepared};
ghost use Rattle.tracker_machine.specs.Entries.{history_meaning, told_entry};
ghost use Rattle.tracker_machine.specs.Tracker.{AllEntriesHold, Holds};

use crate::show::check_show;
use crate::told::{shown_value, user_name};
use change_history::{Entry, Issue};
use fields::{Memory, Setup, UserNo};
use std::alloc::Global;
use tracker_calls::{Answer, Part, Refusal, ToldEntries, ToldEntry, ToldText};
use tracker_state::{Prepared, State};

/// Tells a part of the issue's entries.
pub fn history(
    alloc: Global,
    state: &State,
    caller: UserNo,
    issue: &str,
    part: Part,
) -> Result<Prepared, Refusal>
    ensures { IsPrepared (history_meaning state.now.machine caller.0 issue.now part)
        state.now result }
{
    let issue = check_show(alloc, state, caller, issue)?;
    let answer = issue_answer(alloc, state.setup(), issue, part)?;
    Ok(Prepared::Tell(answer))
}

#[tactic(auto, using(crate::proofs::Holding::held_part))]
fn issue_answer(alloc: Global, setup: &Setup, issue: &Issue, part: Part) -> Result<Answer, Memory>
    requires { AllEntriesHold (names_in (parts setup.now)) issue.now.history.entries }
    ensures { IfOk result (λ answer. answer
        ≡ Answer.History (map (told_entry (names_in (parts setup.now)))
        (part_of part issue.now.history.entries)) (length issue.now.history.entries)) }
{
    let entries = issue.part(part.from as usize, part.count as usize);
    Ok(Answer::History {
        entries: told_entries(alloc, setup, entries)?,
        total: issue.entries() as u64,
    })
}

fn told_entries(alloc: Global, setup: &Setup, entries: &[Entry]) -> Result<ToldEntries, Memory>
    requires { AllEntriesHold (names_in (parts setup.now)) entries.now }
    ensures { IfOk result (λ told. told
        ≡ map (told_entry (names_in (parts setup.now))) entries.now) }
{
    let mut told = ToldEntries::new(alloc);
    for entry in entries {
        told.push(told_entry(alloc, setup, entry)?)?;
    }
    Ok(told)
}

fn told_entry(alloc: Global, setup: &Setup, entry: &Entry) -> Result<ToldEntry, Memory>
    requires from { Holds (names_in (parts setup.now)) entry.now.field entry.now.from }
    requires to { Holds (names_in (parts setup.now)) entry.now.field entry.now.to }
    ensures { IfOk result (λ told. told ≡ told_entry (names_in (parts setup.now)) entry.now) }
{
    let by = user_name(alloc, setup, entry.author)?;
    let field = ToldText::copy_of(alloc, setup.field_name(entry.field))?;
    let from = shown_value(alloc, setup, entry.field, &entry.from)?;
    let to = shown_value(alloc, setup, entry.field, &entry.to)?;
    Ok(ToldEntry {
        at: entry.at,
        by,
        change: entry.change,
        field,
        from,
        to,
    })
}
