//! Which issues the filters of a tracker list for a user, and which of these lists a call may change.
#![tactic(auto)]

mod events;
mod laws;
mod lists;

pub use events::{Before, calls_change_lists};
pub use laws::lists_are_shown;
pub use lists::{has_filter, list, lists_at};
