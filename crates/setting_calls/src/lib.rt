//! What the calls prepare that change what stands beside the issues: the clock, sprints, and who is in which group.
#![tactic(auto)]

mod check;
pub mod make_sprint;
pub mod remaining;
mod rows;
pub mod set_group;
pub mod tick;
pub mod turn_sprint;
