//! Local time by a table of offsets, its days, and the days on which its weeks begin.

ghost use Rattle.std.specs.Prelude.{◌≡◌, ℕ, ◌+◌, ◌-◌, ◌<◌, ◌≤◌, List, ◌∷◌, ◌++◌, length, take, drop, OnOk, OnErr, IfOk, IfErr, None, true, AllPairs, All, ℤ, pos, neg_ℤ, ◌+ℤ◌, ◌-ℤ◌, ◌*ℤ◌, ◌≤ℤ◌, ◌<ℤ◌, int_lt};
ghost use Rattle.std.specs.Int.{int_div_euclid, int_max};
ghost use Rattle.std.specs.List.{AllWithin, list_all};
ghost use Rattle.jiff_core.specs.Calendar.{IsBetween, IsWithin};
ghost use Rattle.relative_dates.specs.Years.{last_second};
ghost use Rattle.relative_dates.specs.Calendar.{minutes_from, minutes_at, local_second, local_day, first_at, midnight, fixed_calendar, calendar_with, goes_back, step_fault, IsRefusal, IsFirstAt, IsZone, IsCalendar, IsOffset, IsStep, step_at};

use std::alloc::{AllocError, Global};
use std::marker::Model;

const SECONDS_A_DAY: i64 = 86_400;

const MOST_STEPS: usize = 400;

/// No offset is further from UTC.
const MOST_MINUTES: i64 = 840;

/// A step of the local clock: from the moment `from` on, in seconds since 1970-01-01 00:00:00 UTC,
/// it is `minutes` ahead of UTC, or behind it where they are negative.
#[derive(Clone, Copy, PartialEq, Eq)]
pub struct OffsetStep {
    pub from: i64,
    pub minutes: i32,
}

/// Why a calendar takes no further step.
#[derive(Clone, Copy, Debug, PartialEq, Eq)]
pub enum StepFault {
    /// It doesn't come after the last one.
    NotLater,
    /// It turns the local clock back to a day before.
    DayGoesBack,
    /// There are 400 of them.
    Full,
    Memory,
}

/// The local clock of one place, and the day on which its weeks begin.
#[derive(Drop)]
pub struct Calendar {
    first_offset: i32,
    first_day: u8,
    steps: Vec<OffsetStep>,
}

impl Model for Calendar {
    ghost use Rattle.relative_dates.specs.Calendar.{LocalCalendar, IsCalendar};

    ghost Value = { LocalCalendar };

    ghost view = { λ c. record {
      zone = record
          { first_offset = c.first_offset; steps = c.steps.items };
      first_day = c.first_day;
    } };

    ghost invariant = { λ c. IsCalendar
        (record {
          zone = record { first_offset = c.first_offset; steps = c.steps.items };
          first_day = c.first_day;
        }) };
}

impl Calendar {
    /// The calendar of one offset, with weeks that begin on `first_day`: 1 for Monday to 7 for Sunday.
    pub fn new(alloc: Global, offset_minutes: i32, first_day: u8) -> Calendar
        requires offset { IsOffset offset_minutes }
        requires monday_or_later { 1 ≤ first_day }
        requires sunday_or_earlier { first_day ≤ 7 }
        ensures { result ≡ fixed_calendar offset_minutes first_day }
    {
        Calendar {
            first_offset: offset_minutes,
            first_day,
            steps: Vec::new(alloc),
        }
    }

    /// The same calendar once more.
    pub fn copy(&self, alloc: Global) -> Result<Calendar, AllocError>
        ensures { IfOk result (λ calendar. calendar ≡ self.now) }
    {
        let steps = self.steps.as_slice().to_vec(alloc)?;
        Ok(Calendar {
            first_offset: self.first_offset,
            first_day: self.first_day,
            steps,
        })
    }

    /// Takes one step more of the local clock. After a refusal the calendar is as before.
    pub fn add_step(&mut self, from: u64, minutes: i32) -> Result<(), StepFault>
        requires from { from ≤ last_second }
        requires minutes { IsOffset minutes }
        ensures ok { OnOk result ((step_fault self.old.zone (step_at from minutes) ≡ None)
            × (self.new ≡ calendar_with self.old (step_at from minutes))) }
        ensures refused { IfErr result (IsRefusal
            (step_fault self.old.zone (step_at from minutes))) }
        ensures err { OnErr result (self.new ≡ self.old) }
    {
        let step = OffsetStep {
            from: from as i64,
            minutes,
        };
        if let Some(fault) = refusal(self.first_offset, &self.steps, step) {
            return Err(fault);
        }
        let Ok(()) = self.steps.push(step) else {
            return Err(StepFault::Memory);
        };
        Ok(())
    }

    /// The local day of a moment.
    pub fn day_of(&self, at: i64) -> i64
        requires { IsWithin 1_000_000_000_000_000 at }
        ensures value { result ≡ local_day self.now.zone at }
        ensures near { IsBetween (at -ℤ pos 136_800) (at +ℤ pos 50_400) (result *ℤ pos 86_400) }
    {
        day_under(minutes_in_force(self.first_offset, &self.steps, at), at)
    }

    /// The midnight of a local day: the first moment at which the local clock has come to it.
    pub fn start_of(&self, day: i64) -> i64
        requires { IsWithin 20_000_000_000 day }
        ensures value { result ≡ midnight self.now.zone day }
        ensures first { IsFirstAt self.now.zone (day *ℤ pos 86_400) result }
    {
        first_moment(self.first_offset, &self.steps, day * SECONDS_A_DAY)
    }

    /// The first moment at which the local clock has come to a local second.
    pub(crate) fn first_at(&self, second: i64) -> i64
        requires { IsWithin 10_000_000_000_000_000 second }
        ensures value { result ≡ first_at self.now.zone second }
        ensures near { IsBetween (second -ℤ pos 50_400) (second +ℤ pos 50_400) result }
    {
        first_moment(self.first_offset, &self.steps, second)
    }

    /// The day on which weeks begin: 1 for Monday to 7 for Sunday.
    pub fn first_day(&self) -> u8
        ensures value { result ≡ self.now.first_day }
        ensures calendar { IsCalendar self.now }
    {
        self.first_day
    }
}

/// What refuses a further step, but for want of memory.
fn refusal(first_offset: i32, steps: &[OffsetStep], step: OffsetStep) -> Option<StepFault>
    requires zone { IsZone (record { first_offset = first_offset; steps = steps.now }) }
    requires step { IsStep step }
    ensures { result ≡ step_fault (record { first_offset = first_offset; steps = steps.now }) step }
{
    if !is_later(steps, step.from) {
        return Some(StepFault::NotLater);
    }
    if turns_back(first_offset, steps, step) {
        return Some(StepFault::DayGoesBack);
    }
    if steps.len() == MOST_STEPS {
        return Some(StepFault::Full);
    }
    None
}

/// Whether a moment comes after every step.
fn is_later(steps: &[OffsetStep], from: i64) -> bool
    requires { AllPairs (λ step later. step.from <ℤ later.from) steps.now }
    ensures { result ≡ list_all (λ step. int_lt step.from from) steps.now }
{
    let count = steps.len();
    if count == 0 {
        true
    } else {
        steps[count - 1].from < from
    }
}

/// Whether a step after all others turns the local clock back to a day before.
fn turns_back(first_offset: i32, steps: &[OffsetStep], step: OffsetStep) -> bool
    requires zone { IsZone (record { first_offset = first_offset; steps = steps.now }) }
    requires step { IsStep step }
    requires later { list_all (λ earlier. int_lt earlier.from step.from) steps.now ≡ true }
    ensures { result ≡ goes_back (record { first_offset = first_offset; steps = steps.now }) step }
{
    let last = step.from - 1;
    let day_before = day_under(minutes_in_force(first_offset, steps, last), last);
    day_under(step.minutes, step.from) < day_before
}

/// The local day of a moment, where the clock is so many minutes ahead of UTC.
fn day_under(minutes: i32, at: i64) -> i64
    requires { IsWithin 1_000_000_000_000_000 at }
    ensures { result ≡ int_div_euclid (at +ℤ (pos 60 *ℤ minutes)) (pos 86_400) }
{
    (at + 60 * i64::from(minutes)).div_euclid(SECONDS_A_DAY)
}

/// How many of the rising steps have come by a moment.
fn steps_by(steps: &[OffsetStep], at: i64) -> usize
    requires { AllPairs (λ step later. step.from <ℤ later.from) steps.now }
    ensures within { result ≤ length steps.now }
    ensures come { AllWithin (λ step. step.from ≤ℤ at) steps.now 0 result }
    ensures to_come { AllWithin (λ step. at <ℤ step.from) steps.now result (length steps.now) }
{
    steps.partition_point(|step| step.from <= at)
}

/// The minutes in force at a moment.
fn minutes_in_force(first_offset: i32, steps: &[OffsetStep], at: i64) -> i32
    requires { AllPairs (λ step later. step.from <ℤ later.from) steps.now }
    ensures { result ≡ minutes_from first_offset steps.now at }
{
    let come = steps_by(steps, at);
    if come == 0 {
        first_offset
    } else {
        steps[come - 1].minutes
    }
}

/// The first moment at which the local clock has come to a local second.
fn first_moment(first_offset: i32, steps: &[OffsetStep], second: i64) -> i64
    requires zone { IsZone (record { first_offset = first_offset; steps = steps.now }) }
    requires second { IsWithin 10_000_000_000_000_000 second }
    ensures { IsFirstAt (record { first_offset = first_offset; steps = steps.now }) second result }
{
    let start = second - 60 * MOST_MINUTES;
    let (_, later) = steps.split_at(steps_by(steps, start));
    let mut present = OffsetStep {
        from: start,
        minutes: minutes_in_force(first_offset, steps, start),
    };
    for step in later {
        let at = reached_under(present, second);
        if at < step.from {
            return at;
        }
        present = *step;
    }
    reached_under(present, second)
}

/// The first moment from the step on at which its clock has come to a local second.
fn reached_under(step: OffsetStep, second: i64) -> i64
    requires { IsWithin 10_000_000_000_000_000 second }
    ensures { result ≡ int_max step.from (second -ℤ (pos 60 *ℤ step.minutes)) }
{
    step.from.max(second - 60 * i64::from(step.minutes))
}
