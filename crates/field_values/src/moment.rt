ghost use Rattle.std.specs.Prelude.{◌≡◌, ℕ, ◌≤◌};
ghost use Rattle.std.specs.Option.{SomeIff};
ghost use Rattle.field_values.specs.Years.{last_second};

use std::marker::Model;

/// A whole number of seconds since 1970-01-01 00:00:00 UTC, leap seconds left out, at most
/// [`Moment::LAST`]. Contracts see it as that number.
#[derive(Clone, Copy, Debug, PartialEq, Eq, PartialOrd, Ord)]
pub struct Moment {
    seconds: u64,
}

impl Model for Moment {
    ghost Value = { ℕ };

    ghost view = { λ m. m.seconds };

    ghost invariant = { λ m. m.seconds ≤ last_second };

    ghost inverse = { λ n. record { seconds = n } };
}

impl Moment {
    /// The last second of the year 2099.
    pub const LAST: u64 = 4_102_444_799;

    /// 1970-01-01 00:00:00 UTC.
    pub fn first() -> Self
        ensures { result ≡ 0 }
    {
        Moment { seconds: 0 }
    }

    /// The moment of that many seconds; `None` exactly past [`Moment::LAST`].
    pub fn new(seconds: u64) -> Option<Self>
        ensures { SomeIff result (seconds ≤ last_second) seconds }
    {
        if seconds <= Self::LAST {
            Some(Moment { seconds })
        } else {
            None
        }
    }

    /// The number of seconds.
    pub fn seconds(self) -> u64
        ensures { result ≡ self }
    {
        self.seconds
    }
}
