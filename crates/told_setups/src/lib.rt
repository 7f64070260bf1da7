//! What is told of a setup: its fields, groups, projects, statuses and transitions, and the offset of local time.
#![tactic(auto)]

mod fields_told;
mod groups_told;
mod local_offset;
mod projects_told;
mod statuses_told;
mod transitions_told;

pub use fields_told::{copy_names, told_field};
pub use groups_told::{told_groups, user_name};
pub use local_offset::minutes_at;
pub use projects_told::told_projects;
pub use statuses_told::{status_name, told_statuses};
pub use transitions_told::told_transitions;
