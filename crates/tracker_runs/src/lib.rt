//! Runs of the abstract tracker over whole inputs, for contracts alone: which line gets which reply, and what is so of the ranks
//! after any lines.
#![tactic(auto)]

mod laws;

pub use laws::{
    moves_are_of_one_issue, ranks_stay_distinct, rebalancing_shows_in_ranks_alone, rebalancings_end,
};
