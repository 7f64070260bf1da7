//! Subscriptions to sets of issues that change: what comes in and what goes out is numbered, and kept until it is acknowledged. It
//! knows no tracker.
#![tactic(auto)]

mod block;
mod each;
mod feed;
mod feeds;
mod laws;
mod least;
mod lister;
mod moves;
mod queue;

pub use feeds::{FeedFault, Feeds, MOST_FEEDS};
pub use laws::moves_replay;
pub use lister::Lister;
pub use moves::{Change, Move};
