// A value of which each call owes a look.
ghost use Rattle.std.specs.Prelude.{◌≡◌, ◌==◌, vec_len};

use desk_turn::{Entry, Kept, Memory};
use std::alloc::Global;
use turn_workers::Wakes;

/// A sum, and how many looks are owed behind it.
#[derive(Clone, Copy)]
pub struct Added {
    pub sum: u64,
    pub owed: u64,
}

impl Wakes for Added {
    fn wakes(&self) -> bool {
        self.owed > 0
    }
}

/// Adds up what it is asked, and owes a look for each. To ask 0 is a look, which finds nothing
/// where no look is owed.
#[derive(Drop)]
pub struct Sums {
    pub sum: u64,
    pub owed: u64,
    pub entries: Vec<Entry<u64, Added>>,
}

impl Sums {
    pub fn new(alloc: Global) -> Sums
        ensures { vec_len result.entries ≡ 0 }
    {
        Sums {
            sum: 0,
            owed: 0,
            entries: Vec::new(alloc),
        }
    }
}

impl Kept for Sums {
    type Ask = u64;

    type Told = Added;

    type Origin = ();

    type State = (u64, u64);

    ghost origin = { λ s. tt };

    ghost state = { λ s. (s.sum, s.owed) };

    ghost history = { λ s. s.entries.items };

    ghost is_look = { λ ask. ask == 0 };

    fn enter(&mut self, caller: u32, ask: &u64) -> Result<Option<Added>, Memory> {
        if *ask == 0 && self.owed == 0 {
            return Ok(None);
        }
        let owed = if *ask == 0 {
            self.owed.wrapping_sub(1)
        } else {
            self.owed.wrapping_add(1)
        };
        let told = Added {
            sum: self.sum.wrapping_add(*ask),
            owed,
        };
        let entry = Entry {
            by: caller,
            ask: *ask,
            told,
        };
        if self.entries.push(entry).is_err() {
            return Err(Memory);
        }
        self.owed = owed;
        self.sum = told.sum;
        Ok(Some(told))
    }
}
