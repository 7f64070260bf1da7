// The offset of local time from UTC at a moment.
ghost use Rattle.std.specs.Prelude.{◌≡◌, pos};
ghost use Rattle.relative_dates.specs.Calendar.{minutes_at};
ghost use Rattle.setup_drafts.specs.Offsets.{zone_of};

use fields::{Moment, Offset, Setup};

/// How many minutes local time is ahead of UTC at a moment.
pub fn minutes_at(setup: &Setup, at: Moment) -> i32
    ensures { result ≡ minutes_at
        (zone_of setup.now.utc_offset_minutes setup.now.offset) (pos at) }
{
    minutes_by(setup.utc_offset_minutes, setup.offset.as_slice(), at)
}

// The minutes of the last step that has come, or those at first where none has.
#[tactic(auto, unfolding(relative_dates::specs::Calendar::minutes_from))]
fn minutes_by(first: i32, steps: &[Offset], at: Moment) -> i32
    ensures { result ≡ minutes_at (zone_of first steps.now) (pos at) }
{
    let mut minutes = first;
    for step in steps {
        if at.seconds() < step.from.seconds() {
            return minutes;
        }
        minutes = step.minutes;
    }
    minutes
}
