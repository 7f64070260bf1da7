//! The tracker's state, how plans change it, and what calls of every kind ask of it before they do.
#![tactic(auto)]

mod asking;
mod check;
mod found;
mod install;
mod keys;
pub mod no_room;
mod part;
mod plan;
mod row_room;
mod rows;
mod state;

pub use asking::asked;
pub use check::{check_access, check_permission, known_issue, malformed, unknown, unnumbered};
pub use found::Found;
pub use install::phase_of;
pub use keys::key_numbered;
pub use part::part_of;
pub use plan::{GroupPlan, IssuePlan, MembersPlan, NewExternal, Plan, Prepared, RankPlan};
pub use rows::{
    external_op, members_op, migrating_ops, opening_ops, present_ops, put_present, put_rank,
    rank_op,
};
pub use state::State;
