//! A tracker's state from its kept rows.
#![tactic(auto)]

mod asking;
mod assemble;
mod copies;
mod entries;
mod filtered;
mod join;
mod join_board;
mod join_external;
mod join_filter;
mod join_group;
mod join_issue;
mod join_members;
mod join_rank;
mod join_sprint;
mod join_told;
mod keys;
mod kinds;
mod loading;
mod making;
mod named_sprints;
mod opening_rows;
mod own_part;
mod parts;
mod phases;
mod places;
mod progress;
mod ranked;
mod turn;
mod walk;
mod weight;

pub use loading::{LoadFault, Loaded, load};
