//! Ranks of issues as texts that compare as texts, and the rank between two neighbours.
#![tactic(auto)]

mod choice;
mod compare;
mod digit;
mod fault;
mod gap;
pub mod laws;
mod rank;
mod read;
mod spacing;
mod text;

pub use choice::between;
pub use fault::RankFault;
pub use rank::Rank;
pub use text::{Memory, Text};
