ghost use Rattle.std.specs.Prelude.{◌≡◌, ◌≤◌, [], pos, not, map, IfOk, IsTrue, unsigned_abs};
ghost use Rattle.toml.specs.Data.{get_member};
ghost use Rattle.toml.specs.View.{table_view};
ghost use Rattle.field_values.specs.Years.{last_second};
ghost use Rattle.relative_dates.specs.Calendar.{IsOffset, calendar_with, step_at};
ghost use Rattle.setup_drafts.specs.Faults.{Answers};
ghost use Rattle.setup_drafts.specs.Cells.{whole_fault, whole_in};
ghost use Rattle.setup_drafts.specs.Entries.{entries_fault};
ghost use Rattle.setup_drafts.specs.Offsets.{zone_of, turns_back, comes_later, offset_of};
ghost use Rattle.setup_drafts.specs.Offsets.{offset_fault, with_offset, steps_of, offsets_fault};
ghost use Rattle.setup_drafts.specs.Offsets.{offsets_in};

use crate::cell::{tables_at, whole_at};
use crate::fault::SetupFault;
use field_values::memory::Memory;
use field_values::moment::Moment;
use field_values::offset::Offset;
use field_values::sequence::Sequence;
use relative_dates::{Calendar, StepFault};
use std::alloc::Global;
use toml::Table;

// The last moment, as a table's number.
const LAST: i64 = Moment::LAST as i64;

/// Steps of the offset, and the calendar that has taken them.
#[derive(Drop)]
pub struct OffsetSteps {
    pub offsets: Sequence<Offset>,
    pub calendar: Calendar,
}

fn comes_later(earlier: &[Offset], from: u64) -> bool
    ensures { result ≡ comes_later earlier.now from }
{
    earlier.iter().all(|offset| offset.from.seconds() < from)
}

fn moment_at(alloc: Global, entry: &Table, key: &str) -> Result<Moment, SetupFault>
    ensures { Answers (whole_fault key.now (pos 0) (pos last_second)
        (get_member key.now (table_view entry.now)))
        (unsigned_abs (whole_in (get_member key.now (table_view entry.now)))) result }
{
    let seconds = whole_at(alloc, entry, key, 0, LAST)?;
    match Moment::new(seconds as u64) {
        Some(moment) => Ok(moment),
        None => unreachable!(),
    }
}

/// Whether the calendar took the step; it doesn't where the local day would go back.
#[tactic(auto, using(crate::proofs::LocalSteps::day_goes_back, crate::proofs::LocalSteps::day_goes_on), unfolding(crate::specs::Offsets::turns_back))]
fn takes_step(calendar: &mut Calendar, from: u64, minutes: i32) -> Result<bool, Memory>
    requires from { from ≤ last_second }
    requires minutes { IsOffset minutes }
    ensures told { IfOk result (λ taken. taken ≡ not (turns_back calendar.old.zone from minutes)) }
    ensures taken { IfOk result (λ taken. IsTrue taken → calendar.new
        ≡ calendar_with calendar.old (step_at from minutes)) }
{
    match calendar.add_step(from, minutes) {
        Ok(()) => Ok(true),
        Err(StepFault::DayGoesBack) => Ok(false),
        // Its caller has seen that it comes later, and that it is one of at most 400.
        Err(StepFault::NotLater | StepFault::Full | StepFault::Memory) => Err(Memory),
    }
}

/// The step of an entry, which the calendar takes.
#[tactic(auto, unfolding(crate::specs::Offsets::offset_fault, crate::specs::Offsets::offset_of))]
fn read_offset(
    alloc: Global,
    entry: &Table,
    earlier: &[Offset],
    calendar: &mut Calendar,
) -> Result<Offset, SetupFault>
    requires { calendar.old.zone ≡ zone_of calendar.old.zone.first_offset earlier.now }
    ensures told { Answers (offset_fault calendar.old.zone.first_offset earlier.now
        (table_view entry.now))
        (offset_of (table_view entry.now)) result }
    ensures calendar { IfOk result (λ offset. calendar.new
        ≡ calendar_with calendar.old (step_at offset.from offset.minutes)) }
{
    let from = moment_at(alloc, entry, "from")?;
    if !comes_later(earlier, from.seconds()) {
        return Err(SetupFault::bad_value(alloc, "from"));
    }
    let minutes = whole_at(alloc, entry, "minutes", -840, 840)? as i32;
    if !takes_step(calendar, from.seconds(), minutes)? {
        return Err(SetupFault::bad_value(alloc, "minutes"));
    }
    Ok(Offset { from, minutes })
}

/// The steps of these tables, after so many minutes from the start.
pub(crate) fn read_offsets(
    alloc: Global,
    entries: &[&Table],
    minutes: i32,
    first_day: u8,
) -> Result<OffsetSteps, SetupFault>
    requires minutes { IsOffset minutes }
    requires monday_or_later { 1 ≤ first_day }
    requires sunday_or_earlier { first_day ≤ 7 }
    ensures { let tables = map (λ t. table_view t.now) entries.now in
        Answers (entries_fault (offset_fault minutes) with_offset [] tables)
        (steps_of minutes first_day (map offset_of tables)) result }
{
    let mut calendar = Calendar::new(alloc, minutes, first_day);
    let mut offsets = Sequence::new(alloc);
    for entry in entries {
        let offset = read_offset(alloc, entry, offsets.as_slice(), &mut calendar)?;
        offsets.push(offset)?;
    }
    Ok(OffsetSteps { offsets, calendar })
}

/// The steps of the top table.
#[tactic(auto, unfolding(crate::specs::Offsets::offsets_fault, crate::specs::Offsets::offsets_in))]
pub(crate) fn offsets_at(
    alloc: Global,
    table: &Table,
    minutes: i32,
    first_day: u8,
) -> Result<OffsetSteps, SetupFault>
    requires minutes { IsOffset minutes }
    requires monday_or_later { 1 ≤ first_day }
    requires sunday_or_earlier { first_day ≤ 7 }
    ensures { Answers (offsets_fault minutes (table_view table.now))
        (steps_of minutes first_day (offsets_in (table_view table.now))) result }
{
    let entries = tables_at(alloc, table, "offset", 0, 400)?;
    read_offsets(alloc, entries.as_slice(), minutes, first_day)
}
