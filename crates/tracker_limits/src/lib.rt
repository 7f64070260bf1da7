//! How much a tracker holds at most.
#![tactic(auto)]

mod limits;

pub use limits::{
    ENTRIES_RESERVE, MOST_BOARDS, MOST_ENTRIES, MOST_FILTERS, MOST_ISSUES, MOST_SPRINTS,
    MOST_TEXT_BYTES, TEXT_RESERVE, limits_are_told,
};
