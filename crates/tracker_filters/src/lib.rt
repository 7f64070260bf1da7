//! The saved filters of a tracker with their verdicts on all issues, as one part of a desk's state.
#![tactic(auto)]

mod asking;
mod cells;
mod due;
mod filter;
mod filters;
mod lookup;
mod members;
mod ready;
mod sprint;

pub use filter::Filter;
pub use filters::Filters;
pub use ready::ReadyFilter;
