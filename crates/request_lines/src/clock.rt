// The time of day, as readings that come one after another.
ghost use Rattle.std.specs.Prelude.{◌≡◌, ◌≤◌, List, ℕ, Option};
ghost use Rattle.request_lines.specs.Readings.{Reads};

/// A clock that is read again and again.
pub trait Clock {
    /// The readings that are still to come, the last of which comes again and again, where the clock tells them.
    ghost ahead: { Self → Option (List ℕ) };

    /// The next reading, in seconds since 1970-01-01 00:00:00 UTC. One past the year 2099 is taken as its last second.
    fn now(&mut self) -> u64
        ensures within { result ≤ 4102444799 }
        ensures reading { Reads (ahead self.old) (ahead self.new) result };
}

/// A clock in memory.
#[derive(Drop)]
pub struct ListClock {
    readings: Vec<u64>,
    at: usize,
}

impl ListClock {
    /// The last second of the year 2099.
    const LAST: u64 = 4_102_444_799;

    /// A clock with these readings, the last of which comes again and again. A clock without any stands at 0.
    pub fn new(readings: Vec<u64>) -> Self
        ensures readings { result.readings.items ≡ readings.items }
        ensures first { result.at ≡ 0 }
    {
        ListClock { readings, at: 0 }
    }
}

impl Clock for ListClock {
    ghost use Rattle.std.specs.Prelude.{Some, drop};

    ghost ahead = { λ c. Some (drop c.at c.readings.items) };

    fn now(&mut self) -> u64 {
        let Some(reading) = self.readings.get(self.at).copied() else {
            return 0;
        };
        if self.at + 1 < self.readings.len() {
            self.at += 1;
        }
        reading.min(Self::LAST)
    }
}
