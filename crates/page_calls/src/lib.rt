//! What the calls prepare that tell what there is: issues with their fields, saved filters, boards and
//! sprints, and what the setup and the present say.
#![tactic(auto)]

pub mod board_list;
pub mod describe;
pub mod filter_list;
pub mod issue_list;
pub mod sprint_list;
pub mod wanted;
