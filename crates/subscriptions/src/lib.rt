//! The subscriptions of a tracker: what they ask of its state.
#![tactic(auto)]

mod lists;

pub use lists::StateLists;
