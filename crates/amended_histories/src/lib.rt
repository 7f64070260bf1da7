//! That a tracker whose setup was amended tells the same of every issue, for contracts alone.
#![tactic(auto)]

pub mod laws;
