//! The states of a sprint, and why one isn't made.
ghost use Rattle.std.specs.Prelude.{◌≡◌};
ghost use Rattle.sprints.specs.State.{after_start, after_close};

use field_values::Moment;

/// The state of a sprint. With each moment goes the number of the last change group at that time.
#[derive(Clone, Copy, Debug, PartialEq, Eq)]
pub enum SprintState {
    /// It waits for its start.
    Future,
    /// It has started.
    Active {
        at: Moment,
        change: u64,
    },
    /// It has started and come to its end.
    Closed {
        start_at: Moment,
        start_change: u64,
        at: Moment,
        change: u64,
    },
}

/// Why a sprint isn't made.
#[derive(Clone, Copy, Debug, PartialEq, Eq)]
pub enum SprintFault {
    /// There are 1,000 sprints.
    Full,
    /// There was not enough memory.
    Memory,
}

impl SprintState {
    /// The state after a start, where it allows one.
    pub fn after_start(&self, at: Moment, change: u64) -> Option<SprintState>
        ensures { result ≡ after_start self.now at change }
    {
        match *self {
            SprintState::Future => Some(SprintState::Active { at, change }),
            SprintState::Active { .. } | SprintState::Closed { .. } => None,
        }
    }

    /// The state after a close, where it allows one.
    pub fn after_close(&self, at: Moment, change: u64) -> Option<SprintState>
        ensures { result ≡ after_close self.now at change }
    {
        match *self {
            SprintState::Active {
                at: start_at,
                change: start_change,
            } => Some(SprintState::Closed {
                start_at,
                start_change,
                at,
                change,
            }),
            SprintState::Future | SprintState::Closed { .. } => None,
        }
    }
}
