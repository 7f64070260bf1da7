//! What the calls of ranks prepare: moves, the ranks that are told, and their rebalancing.
#![tactic(auto)]

pub mod moves;
pub mod ranks;
pub mod rebalance;
mod rows;
