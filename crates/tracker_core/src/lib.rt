//! The tracker itself: the desk that makes one call at a time, and has kept what it changes.
#![tactic(auto)]

mod desk;
mod opening;
mod preparing;

pub use desk::{Desk, OpenFault};
pub use preparing::list_fault;
pub use tracker_state::State;
