//! Present comparisons: whether one holds of an issue as it is, and when that may change although nothing happens to the issue.
#![tactic(auto)]

mod compare;
mod end;
mod holds;
mod mark;
mod naming;
mod phase;
mod words;

pub use compare::second_now;
pub use end::{earlier, next_present};
pub use holds::holds_present;
pub use naming::{has_value, is_named, names_choice, names_text, names_user};
