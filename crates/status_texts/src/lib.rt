//! What commands write beside their replies, where a status tells something; each call answers the status.
#![tactic(auto)]

mod bad_row;
mod setup_fault;
mod telling;
mod texts;

pub use bad_row::tell_row;
pub use setup_fault::{SETUP_LIMIT, tell_fault};
pub use telling::tell;
