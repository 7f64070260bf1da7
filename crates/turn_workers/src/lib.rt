//! Workers that call the value of a turn, each on a thread of its own with a pass of its own, and beside them one more that looks
//! after the value whenever something that was told says so. The value comes back when all of them have ended.
#![tactic(auto)]

mod bell;
mod ended;
mod gate;
mod job;
mod passes;
mod round;
mod seat;
mod wakes;
mod watch;
mod workers;

pub use bell::Bell;
pub use ended::Ended;
pub use gate::{Gate, OpenGate};
pub use job::Job;
pub use round::{Round, Span, run_workers};
pub use seat::Seat;
pub use wakes::Wakes;
