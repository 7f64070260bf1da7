//! Kept rows: what keeps them, and the text of each part of a tracker.
#![tactic(auto)]

mod back;
mod body;
mod forms;
mod keeper;
pub mod laws;
mod lone_texts;
mod looking;
mod looking_at_groups;
mod looking_at_issues;
mod looking_at_members;
mod looking_at_values;
mod memory_keeper;
mod never_fails;
mod part;
mod row;
mod row_map;
mod rows;
mod spelled;
mod written;
mod written_history;
mod written_issue;
mod written_values;

pub use keeper::{KeepFault, Keeper};
pub use memory_keeper::MemoryKeeper;
pub use never_fails::NeverFails;
pub use part::{Format, Part};
pub use row::{Row, RowOp};
pub use rows::{body_of, read_body};
pub use written::{board_text, filter_text, present_text, sprint_text};
pub use written_history::group_text;
pub use written_issue::{Created, issue_text};
