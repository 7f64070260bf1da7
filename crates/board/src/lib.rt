//! The order of issues by rank, the rank that puts an issue to a place, and boards that show issues in this order.
#![tactic(auto)]

mod board;
mod find;
mod gap;
mod giving;
pub mod laws;
mod lengths;
mod order;
mod place;
mod room;

pub use board::Board;
pub use order::Order;
pub use place::Place;
