//! What calls that list issues prepare, and those that keep what is listed: searches, filters and boards.
#![tactic(auto)]

mod ahead;
pub mod board_issues;
mod browsing;
mod check;
pub mod drop_board;
pub mod drop_filter;
pub mod filter_issues;
mod foremost;
mod in_order;
mod listing;
pub mod make_board;
mod rows;
pub mod save_filter;
pub mod search;
