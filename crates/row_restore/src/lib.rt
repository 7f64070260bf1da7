//! Rows that are restored from lines: all of them in one commit, where they are a tracker's, or none.
#![tactic(auto)]

mod puts;
mod restoring;

pub use restoring::{RestoreFault, restore};
