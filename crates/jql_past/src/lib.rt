//! Comparisons with the past: whether one holds of an issue's history, and when that may change although nothing happens to
//! the issue.
#![tactic(auto)]

mod changes;
mod disturbed;
mod end;
mod holds;
mod moving;
mod naming;
mod spans;
mod windows;

pub use end::next_past;
pub use holds::holds_past;
