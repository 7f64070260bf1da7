// What the setup says of local time.
ghost use Rattle.std.specs.Prelude.{◌≡◌, pos, length, option_map, slice_get};
ghost use Rattle.relative_dates.specs.Calendar.{local_day};
ghost use Rattle.setup_drafts.specs.Offsets.{zone_of};
ghost use Rattle.field_values.specs.Words.{day_number};

use crate::setup::Setup;
use field_values::moment::Moment;
use field_values::numbers::Day;
use relative_dates::Calendar;

impl Setup {
    /// How many steps the offset from UTC has.
    pub fn steps(&self) -> usize
        ensures { result ≡ length self.now.offset }
    {
        self.offset.as_slice().len()
    }

    /// Step `k` from 0: the moment from which it holds, and the minutes; `None` exactly where there are at most `k`.
    pub fn step(&self, k: usize) -> Option<(Moment, i32)>
        ensures { result ≡ option_map (λ o. (o.from, o.minutes)) (slice_get self.now.offset k) }
    {
        match self.offset.as_slice().get(k) {
            Some(offset) => Some((offset.from, offset.minutes)),
            None => None,
        }
    }

    /// The calendar of local time, lent.
    pub fn calendar(&self) -> &Calendar
        ensures { result.now ≡ record {
          zone = zone_of self.now.utc_offset_minutes self.now.offset;
          first_day = day_number self.now.week_starts;
        } }
    {
        &self.calendar
    }

    /// The local day of a moment.
    pub fn day_of(&self, at: Moment) -> Day
        ensures { result.0
            ≡ local_day (zone_of self.now.utc_offset_minutes self.now.offset) (pos at) }
    {
        Day(self.calendar.day_of(at.seconds() as i64) as i32)
    }
}
