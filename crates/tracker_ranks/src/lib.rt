//! The order of a tracker's issues by rank and the balance of their ranks, as one value.
#![tactic(auto)]

pub mod laws;
mod load;
mod ranks;

pub use ranks::Ranks;
