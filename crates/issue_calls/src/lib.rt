//! What calls of one issue prepare: those that make or change it, and those that tell of it.
#![tactic(auto)]

mod check;
pub mod create;
mod due;
pub mod edit;
mod external;
mod group;
pub mod history;
mod new_issue;
mod rows;
pub mod show;
pub mod spelled;
mod told;
pub mod transition;
