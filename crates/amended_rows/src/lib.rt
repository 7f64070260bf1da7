//! The rows of a tracker whose setup is amended, for contracts alone.
#![tactic(auto)]

pub mod laws;
